// Finds and writes the sample run, in room of its own. Where there are many states, the moves between them are stored once, if they have
// room, and the distances and every step look at stored moves only; else pairs of states are tested by their signs, which of few states the
// caller has. What room is lent to the walks depends on how many states there are.
#![tactic(auto)]

ghost use Rattle.std.specs.Prelude.{◌≡◌, ◌*◌, ◌≤◌};
ghost use Rattle.meaning.specs.Promises.{most_states};
ghost use Rattle.rules_signs.specs.Signs.{head_size, Signed};
ghost use Rattle.rules_signs.specs.Sizes.{tiny_states, most_signs};
ghost use Rattle.sample_walk.specs.Walk.{Steerable, Walked};
ghost use Rattle.sample.specs.Ways.{WalkedAlong};

use ground::{MOST_PROMISES, MOST_STATES, State};
use rules::Book;
use rules_signs::{FEW_SIGNS, FEW_STATES, MOST_SIGNS, SOME_SIGNS, SOME_STATES, TINY_STATES};
pub use sample_walk::Steps;
use sample_walk::walk;

// A sheet has at most so many aims, and so many rows of distances.
const AIMS: usize = MOST_PROMISES;

// Room for the distances of tiny, few, some and all states.
const TINY_DISTANCES: usize = AIMS * TINY_STATES;

const FEW_DISTANCES: usize = AIMS * FEW_STATES;

const SOME_DISTANCES: usize = AIMS * SOME_STATES;

const MOST_DISTANCES: usize = AIMS * MOST_STATES;

// ---- by tests of pairs

// With no moves stored, by the signs: in room for up to STATES states, and for so many rows of DISTANCES.
fn walk_by_tests<const DISTANCES: usize, const STATES: usize>(
    book: &Book,
    table: &[State],
    words: &mut [u32],
    run: &mut [State],
    r: usize,
    signs: &[u64],
) -> Steps
    requires { Steerable book.now table.now words.old r × Signed book.now table.now r signs.now × (r ≤ STATES)
        × (STATES ≤ most_states) × (DISTANCES ≡ 16 * STATES) }
    ensures { Walked book.now words.old words.new run.old run.new result.a
        result.b }
{
    let mut dist = [0u16; DISTANCES];
    let mut queue = [0u16; STATES];
    let none = [0u16; 1];
    let empty = &none[..0];
    walk(
        book, table, words, run, &mut dist, r, empty, empty, &mut queue, signs,
    )
}

// The same, with the signs written first, into room of SIGNS.
fn walk_in<const SIGNS: usize, const DISTANCES: usize, const STATES: usize>(
    book: &Book,
    table: &[State],
    words: &mut [u32],
    run: &mut [State],
    r: usize,
) -> Steps
    requires { Steerable book.now table.now words.old r × (r ≤ STATES) × (STATES ≤ most_states) × (DISTANCES ≡ 16 * STATES)
        × (head_size ≤ SIGNS) × (SIGNS ≤ most_signs) }
    ensures { Walked book.now words.old words.new run.old run.new result.a
        result.b }
{
    let mut signs = [0u64; SIGNS];
    rules_signs::fill(book, table, r, &mut signs);
    walk_by_tests::<DISTANCES, STATES>(book, table, words, run, r, &signs)
}

// As `steer`, for very few states, by their signs, so that the smallest sheets stay quick.
pub fn steer_signed(
    book: &Book,
    table: &[State],
    words: &mut [u32],
    run: &mut [State],
    r: usize,
    signs: &[u64],
) -> Steps
    requires { Steerable book.now table.now words.old r × Signed book.now table.now r signs.now × (r ≤ tiny_states) }
    ensures { Walked book.now words.old words.new run.old run.new result.a
        result.b }
{
    walk_by_tests::<TINY_DISTANCES, TINY_STATES>(book, table, words, run, r, signs)
}

// In as much room as they need.
fn walk_unstored(
    book: &Book,
    table: &[State],
    words: &mut [u32],
    run: &mut [State],
    r: usize,
) -> Steps
    requires { Steerable book.now table.now words.old r }
    ensures { Walked book.now words.old words.new run.old run.new result.a
        result.b }
{
    if r <= SOME_STATES {
        return walk_in::<SOME_SIGNS, SOME_DISTANCES, SOME_STATES>(book, table, words, run, r);
    }
    walk_in::<MOST_SIGNS, MOST_DISTANCES, MOST_STATES>(book, table, words, run, r)
}

// ---- along stored moves

// With room for as many states as there can be, and for the moves. Where these are too many nothing is done, and there is no answer: then
// pairs have to be tested, which needs other room, and both together would be too much.
fn walk_stored(
    book: &Book,
    table: &[State],
    words: &mut [u32],
    run: &mut [State],
    r: usize,
) -> Option<Steps>
    requires { Steerable book.now table.now words.old r }
    ensures { WalkedAlong book.now words.old words.new run.old run.new result }
{
    let mut forth = [0u16; moves::SIZE];
    let mut back = [0u16; moves::SIZE];
    if !moves_both::store(book, table, r, &mut forth, &mut back) {
        return None;
    }
    let mut dist = [0u16; MOST_DISTANCES];
    let mut queue = [0u16; MOST_STATES];
    let none = [0u64; 1];
    let unsigned = &none[..0];
    let steps = walk(
        book, table, words, run, &mut dist, r, &forth, &back, &mut queue, unsigned,
    );
    Some(steps)
}

// Finds the sample run of the r livable states in the table's front. b is its length; if b places fit, run begins with its states and a is
// the moment that it goes back to, else run is unchanged. The words are worked in.
pub fn steer(book: &Book, table: &[State], words: &mut [u32], run: &mut [State], r: usize) -> Steps
    requires { Steerable book.now table.now words.old r }
    ensures { Walked book.now words.old words.new run.old run.new result.a
        result.b }
{
    if r <= FEW_STATES {
        return walk_in::<FEW_SIGNS, FEW_DISTANCES, FEW_STATES>(book, table, words, run, r);
    }
    match walk_stored(book, table, words, run, r) {
        Some(steps) => steps,
        None => walk_unstored(book, table, words, run, r),
    }
}
