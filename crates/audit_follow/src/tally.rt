// The tallies of a move, or of one and the same move made several times: for each step rule whose left side held, whether it kept or broke
// it.
ghost use Rattle.std.specs.Prelude.{◌≡◌, cond, ◌+◌, ◌<◌, ◌≤◌, get_or};
ghost use Rattle.std.specs.Option.{unwrap_or};
ghost use Rattle.rules.specs.Book.{steps_of};
ghost use Rattle.audit_account.specs.Carry.{most_moments};
ghost use Rattle.audit_account.specs.Book.{most_tally, broken_by, book_broke, Within, Ruled, Tallied};

use super::TALLIES;
use ground::State;
use rules::Book;

// `times` where the test passed, else 0.
fn counted(passed: bool, times: u32) -> u32
    ensures { result ≡ cond passed times 0 }
{
    if passed { times } else { 0 }
}

// Counts `times` moves from s to t for step rule i; whether they broke the rule. Both tallies are written, whatever the move: which one
// grows is hard to foresee, and a branch on it costs more than the store.
fn tally_rule(
    book: &Book,
    i: usize,
    s: State,
    t: State,
    times: u32,
    kept: &mut [u32; TALLIES],
    broken: &mut [u32; TALLIES],
) -> bool
    requires { (i < steps_of book.now)
        × (get_or kept.old i 0 + times ≤ most_tally) × (get_or broken.old i 0 + times ≤ most_tally) }
    ensures { Ruled book.now s t times i
        kept.old broken.old kept.new broken.new result }
{
    book.shaped();
    let asks = book.step_asks(i, s);
    let allows = book.step_allows(i, t);
    let breaks = asks & !allows;
    kept[i] += counted(asks & allows, times);
    broken[i] += counted(breaks, times);
    breaks
}

// Counts `times` moves from s to t for every step rule; whether they broke one. Which one was the first is not asked here: without that,
// the compiler counts several rules at once.
pub fn tally(
    book: &Book,
    s: State,
    t: State,
    times: u32,
    kept: &mut [u32; TALLIES],
    broken: &mut [u32; TALLIES],
) -> bool
    requires { (times ≤ most_moments)
        × Within (most_moments + most_moments) kept.old × Within (most_moments + most_moments) broken.old }
    ensures { Tallied book.now s t times (steps_of book.now)
        kept.old broken.old kept.new broken.new result }
{
    let mut some = false;
    for i in 0..book.steps() {
        some |= tally_rule(book, i, s, t, times, kept, broken);
    }
    some
}

// Whether the move from s to t breaks step rule i.
fn broken_by(book: &Book, i: usize, s: State, t: State) -> bool
    requires { i < steps_of book.now }
    ensures { result ≡ broken_by book.now s t i }
{
    let asks = book.step_asks(i, s);
    let allows = book.step_allows(i, t);
    asks & !allows
}

// The first step rule that the move from s to t breaks, counted from 1.
pub fn first_broken(book: &Book, s: State, t: State) -> Option<u32>
    ensures { unwrap_or result 0 ≡ book_broke book.now s t }
{
    let count = book.steps();
    for i in 0..count {
        if broken_by(book, i, s, t) {
            return Some(i as u32 + 1);
        }
    }
    None
}
