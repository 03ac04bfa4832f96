// Striking: the words of the strike list's rounds and reasons, for every reachable state. Phase by phase, reason 0 and then each promise,
// round after round, until as many phases as there are reasons have struck nothing. Where there are many states their moves are stored
// first, forth and back, so that a phase follows them (`rounds_along`); else a phase tests pairs of places (`rounds_tests`). This
// crate lends the room; the signs of few states are the caller's, who has more use for them.
#![tactic(auto)]

ghost use Rattle.std.specs.Prelude.{◌≡◌, ◌*◌, ◌≤◌};
ghost use Rattle.meaning.specs.Promises.{most_states};
ghost use Rattle.ground.specs.Wiping.{Zeros};
ghost use Rattle.rules_signs.specs.Signs.{head_size, Signed};
ghost use Rattle.rules_signs.specs.Sizes.{tiny_states, most_signs};
ghost use Rattle.rounds.specs.Phases.{Strikable, Stricken};
ghost use Rattle.rounds_along.specs.Along.{AlongStored};
ghost use Rattle.strike.specs.Ways.{StrickenIfStored};

use ground::{MOST_STATES, State};
use rounds::REASONS;
use rules::Book;
use rules_signs::{FEW_SIGNS, FEW_STATES, MOST_SIGNS, SOME_SIGNS, SOME_STATES, TINY_STATES};

// Room for a row of each reason.
const TINY_ROWS: usize = REASONS * TINY_STATES;

const FEW_ROWS: usize = REASONS * FEW_STATES;

const SOME_ROWS: usize = REASONS * SOME_STATES;

const MOST_ROWS: usize = REASONS * MOST_STATES;

// Strikes up to STATES states, from words that are all 0, by tests of pairs with their signs. ROWS is the room of a row for each reason.
fn strike_by_signs<const ROWS: usize, const STATES: usize>(
    book: &Book,
    table: &[State],
    words: &mut [u32],
    r: usize,
    signs: &[u64],
) -> usize
    requires { Strikable book.now table.now words.old r × Zeros words.old r × Signed book.now table.now r signs.now × (r ≤ STATES)
        × (STATES ≤ most_states) × (ROWS ≡ 17 * STATES) }
    ensures { Stricken book.now table.now r words.old words.new result }
{
    let mut wit = [0u16; ROWS];
    let mut log = [0u16; STATES];
    let mut line = [0u16; STATES];
    rounds_tests::strike_rounds(book, table, words, r, signs, &mut wit, &mut log, &mut line)
}

// The same, with the signs written first, into room of SIGNS.
fn strike_in<const SIGNS: usize, const ROWS: usize, const STATES: usize>(
    book: &Book,
    table: &[State],
    words: &mut [u32],
    r: usize,
) -> usize
    requires { Strikable book.now table.now words.old r × Zeros words.old r × (r ≤ STATES) × (STATES ≤ most_states)
        × (ROWS ≡ 17 * STATES) × (head_size ≤ SIGNS) × (SIGNS ≤ most_signs) }
    ensures { Stricken book.now table.now r words.old words.new result }
{
    let mut signs = [0u64; SIGNS];
    rules_signs::fill(book, table, r, &mut signs);
    strike_by_signs::<ROWS, STATES>(book, table, words, r, &signs)
}

// Gives each of the table's first r states, which are all reachable states and very few, its word, as `strike` does, by the signs of these
// states; how many are left.
pub fn strike_signed(
    book: &Book,
    table: &[State],
    words: &mut [u32],
    r: usize,
    signs: &[u64],
) -> usize
    requires { Strikable book.now table.now words.old r × Signed book.now table.now r signs.now × (r ≤ tiny_states) }
    ensures { Stricken book.now table.now r words.old words.new result }
{
    words[..r].fill(0);
    strike_by_signs::<TINY_ROWS, TINY_STATES>(book, table, words, r, signs)
}

// Strikes states whose moves are not stored, from words that are all 0, in as much room as they need.
fn strike_by_tests(book: &Book, table: &[State], words: &mut [u32], r: usize) -> usize
    requires { Strikable book.now table.now words.old r × Zeros words.old r }
    ensures { Stricken book.now table.now r words.old words.new result }
{
    if r <= SOME_STATES {
        return strike_in::<SOME_SIGNS, SOME_ROWS, SOME_STATES>(book, table, words, r);
    }
    strike_in::<MOST_SIGNS, MOST_ROWS, MOST_STATES>(book, table, words, r)
}

// Strikes many states along their stored moves, from words that are all 0.
fn strike_along(
    book: &Book,
    table: &[State],
    words: &mut [u32],
    r: usize,
    forth: &[u16],
    back: &[u16],
) -> usize
    requires { AlongStored book.now table.now words.old r forth.now back.now × Zeros words.old r }
    ensures { Stricken book.now table.now r words.old words.new result }
{
    let mut wit = [0u16; MOST_ROWS];
    let mut log = [0u16; MOST_STATES];
    let mut line = [0u16; MOST_STATES];
    rounds_along::strike_rounds(
        book, table, words, r, forth, back, &mut wit, &mut log, &mut line,
    )
}

// Strikes many states, from words that are all 0, along their stored moves; none where there was no room for these. The room is given back
// before pairs are tested: both ways at once would need too much of it.
fn strike_stored(book: &Book, table: &[State], words: &mut [u32], r: usize) -> Option<usize>
    requires { Strikable book.now table.now words.old r × Zeros words.old r }
    ensures { StrickenIfStored book.now table.now r words.old words.new result }
{
    let mut forth = [0u16; moves::SIZE];
    let mut back = [0u16; moves::SIZE];
    if !moves_both::store(book, table, r, &mut forth, &mut back) {
        return None;
    }
    Some(strike_along(book, table, words, r, &forth, &back))
}

// Strikes many states, from words that are all 0.
fn strike_many(book: &Book, table: &[State], words: &mut [u32], r: usize) -> usize
    requires { Strikable book.now table.now words.old r × Zeros words.old r }
    ensures { Stricken book.now table.now r words.old words.new result }
{
    match strike_stored(book, table, words, r) {
        Some(left) => left,
        None => strike_by_tests(book, table, words, r),
    }
}

// Gives each of the table's first r states, which are all reachable states, its word: 0 if it is livable, or else 32 times the round plus
// the reason for which it is struck; how many are left.
pub fn strike(book: &Book, table: &[State], words: &mut [u32], r: usize) -> usize
    requires { Strikable book.now table.now words.old r }
    ensures { Stricken book.now table.now r words.old words.new result }
{
    words[..r].fill(0);
    if r <= FEW_STATES {
        return strike_in::<FEW_SIGNS, FEW_ROWS, FEW_STATES>(book, table, words, r);
    }
    strike_many(book, table, words, r)
}
