// An account of a log carried on by more states, move by move: its five numbers, and the tallies of the step rules beside them. What a
// state is and what is told of it stands in crates/audit_account/specs.
#![tactic(auto)]

ghost use Rattle.std.specs.Prelude.{◌≡◌, ◌+◌, ◌<◌, ◌≤◌, length};
ghost use Rattle.audit_account.specs.Carry.{most_moments};
ghost use Rattle.audit_account.specs.Book.{book_is, book_broke, rule_told, book_carried, Moved, Within, Carriable};
ghost use Rattle.audit_follow.specs.Heads.{breach_number, number_of, head_noted, with_tallies};

use ground::State;
use rules::Book;

mod still;
mod tally;

// How many tallies an account has: one for each step rule that a sheet can have.
pub const TALLIES: usize = 255;

// An account's five numbers without its tallies. `what` is a number, and no `Option<Breach>`: any number may be handed in, and it is handed
// back (`Audited` of crates/audit_account/specs/Carry.antt).
#[derive(Clone, Copy)]
pub struct Head {
    pub count: u32,
    pub last: State,
    pub what: u32,
    pub moment: u32,
    pub rule: u32,
}

// What a state can break; an account notes it by its number.
#[derive(Clone, Copy, PartialEq, Eq)]
enum Breach {
    Unlawful,
    FirstRule,
    StepRule,
}

// What an account notes while there is no breach.
const NOTHING: u32 = 0;

impl From<Breach> for u32 {
    ghost from_gives = { λ breach r. r ≡ breach_number breach };

    fn from(breach: Breach) -> u32 {
        match breach {
            Breach::Unlawful => 1,
            Breach::FirstRule => 2,
            Breach::StepRule => 3,
        }
    }
}

// What the state t breaks after `count` others, where the move into it broke a step rule or did not.
fn what_is(book: &Book, count: u32, broke: bool, t: State) -> Option<Breach>
    ensures { number_of result ≡ book_is book.now count broke t }
{
    if !book.lawful(t) {
        return Some(Breach::Unlawful);
    }
    if count == 0 {
        if book.first_state(t) {
            return None;
        }
        return Some(Breach::FirstRule);
    }
    if broke {
        return Some(Breach::StepRule);
    }
    None
}

// The step rule that a breach is told with, the move being from s to t. Asked once in a log at most; kept out of line, so that the moments
// that break nothing do not pass through what it leaves (tried: inline, a log without rules takes a quarter more instructions).
#[cold]
#[inline(never)]
fn rule_told(book: &Book, breach: Breach, s: State, t: State) -> u32
    ensures { result ≡ rule_told (breach_number breach) (book_broke book.now s t) }
{
    match breach {
        Breach::Unlawful => 0,
        Breach::FirstRule => 0,
        Breach::StepRule => tally::first_broken(book, s, t).unwrap_or(0),
    }
}

// The five numbers with `times` more states t, all by the same move, which broke a step rule or did not. The first breach stays.
fn note(book: &Book, head: Head, broke: bool, t: State, times: u32) -> Head
    requires { head.count + times ≤ most_moments }
    ensures { result ≡ head_noted book.now head broke t times }
{
    let count = head.count + times;
    let seen = Head {
        count,
        last: t,
        ..head
    };
    if head.what != NOTHING {
        return seen;
    }
    match what_is(book, head.count, broke, t) {
        None => seen,
        Some(breach) => Head {
            what: u32::from(breach),
            moment: head.count,
            rule: rule_told(book, breach, head.last, t),
            ..seen
        },
    }
}

// Counts the move into t, made `times` times, unless t is the log's first state; whether it broke a step rule.
fn move_into(
    book: &Book,
    head: Head,
    t: State,
    times: u32,
    kept: &mut [u32; TALLIES],
    broken: &mut [u32; TALLIES],
) -> bool
    requires { (times ≤ most_moments)
        × Within (most_moments + most_moments) kept.old × Within (most_moments + most_moments) broken.old }
    ensures { Moved book.now (with_tallies head kept.old broken.old) t times
        kept.new broken.new result }
{
    if head.count == 0 {
        return false;
    }
    tally::tally(book, head.last, t, times, kept, broken)
}

// Follows the states, noting each and counting the move into it, those that come by the same move together; the five numbers at the end.
pub fn follow(
    book: &Book,
    states: &[State],
    head: Head,
    kept: &mut [u32; TALLIES],
    broken: &mut [u32; TALLIES],
) -> Head
    requires { Carriable (with_tallies head kept.old broken.old) (length states.now) }
    ensures { with_tallies result kept.new broken.new
        ≡ book_carried book.now (with_tallies head kept.old broken.old) states.now }
{
    let mut last = head;
    let mut i: usize = 0;
    // No `for`: a turn goes on by as many states as come by the same move.
    while i < states.len() {
        let t = states[i];
        let same = still::same_moves(states, i, last.count, last.last);
        let times = same as u32;
        let broke = move_into(book, last, t, times, kept, broken);
        last = note(book, last, broke, t, times);
        i += same;
    }
    last
}
