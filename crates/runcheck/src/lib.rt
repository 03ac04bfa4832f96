// The run checker: whether a proposed run (b states and a number a) is one that obeys the sheet, read on from b - 1 back to a for ever.
// It stands on the sheet reader and the compiled rules alone, and changes nothing.
//
// The theorem: each call returns the fault's number, 1 to 10, of a bad sheet; else 0 exactly if document 01 accepts the paper, else 14.
// On numbers it returns the fault's place as well, 0 on the other answers. (`check_run` and `check_run_bytes` below;
// what 0 then means is said in proofs/Exactly.antt.)
#![tactic(auto)]

ghost use Rattle.std.specs.Prelude.{◌≡◌};
ghost use Rattle.std.proofs.Math.Option.{none};
ghost use Rattle.meaning.specs.Sheet.{first_fault};
ghost use Rattle.meaning.specs.Papers.{RunAccepted};
ghost use Rattle.meaning.specs.Promises.{system_in, Placed, RunPlaced, RunBytesChecked};
ghost use Rattle.ground.specs.Says.{Says};
ghost use Rattle.rules.specs.Book.{book_system};
ghost use Rattle.runcheck.specs.Run.{MovesOn, KeptFrom, AllKept, PaperAccepted, PaperChecked};

use papers::answer::{Verdict, on_paper};
use papers::{Part, State};
use rules::Book;

// Checks a run: these states, read to the last and then on from place a, for ever. 0 exactly if it obeys the sheet, 1 to 10 for a bad
// sheet and the place of its fault, else 14.
pub fn check_run(sheet: &[u8], states: &[State], a: u32) -> Verdict
    ensures { RunPlaced sheet.now states.now a result.answer result.place }
{
    check(sheet, states, a)
}

// The same with the states as bytes, four each, big-endian, and without the place; a length that is no multiple of four gets 14.
pub fn check_run_bytes(sheet: &[u8], states: &[u8], a: u32) -> u32
    ensures { RunBytesChecked sheet.now states.now a result }
{
    check(sheet, states, a).answer
}

// The sheet first, then the paper.
fn check<S: Part<State>>(sheet: &[u8], states: S, a: u32) -> Verdict
    ensures { Placed sheet.now (PaperChecked sheet.now (S.whole states) (S.items states) a)
        result.answer result.place }
{
    match reader::read_in_numbers(sheet) {
        Ok(()) => on_paper(paper_accepted(sheet, states, a)),
        Err(v) => v,
    }
}

// For a good sheet: whether no byte is left over, and the run is accepted.
fn paper_accepted<S: Part<State>>(sheet: &[u8], states: S, a: u32) -> bool
    requires { first_fault sheet.now ≡ none }
    ensures { Says (PaperAccepted (system_in sheet.now) (S.whole states) (S.items states) a) result }
{
    if !states.is_whole() {
        return false;
    }
    let mut numbers = [0 as State; rules::BOOK_SIZE];
    compile::compile(sheet, &mut numbers);
    let book = Book { numbers: &numbers };
    accepted(&book, states, a as usize)
}

// Whether the run is accepted.
fn accepted<S: Part<State>>(book: &Book, states: S, a: usize) -> bool
    ensures { Says (RunAccepted (book_system book.now) (S.items states) a) result }
{
    let count = states.len();
    if count <= a {
        return false;
    }
    if !book.first_state(states.at(0)) {
        return false;
    }
    if !moves_on(book, states) {
        return false;
    }
    let last = states.at(count - 1);
    let back = states.at(a);
    if !book.moves(last, back) {
        return false;
    }
    keeps_all(book, states, a)
}

// Whether each state moves to the following one.
fn moves_on<S: Part<State>>(book: &Book, states: S) -> bool
    ensures { Says (MovesOn (book_system book.now) (S.items states)) result }
{
    for i in 1..states.len() {
        if !book.moves(states.at(i - 1), states.at(i)) {
            return false;
        }
    }
    true
}

// Whether each promise is true in some state from a on.
fn keeps_all<S: Part<State>>(book: &Book, states: S, a: usize) -> bool
    ensures { Says (AllKept (book_system book.now) (S.items states) a) result }
{
    for k in 0..book.promises() {
        if !keeps(book, states, a, k) {
            return false;
        }
    }
    true
}

// Whether promise k is.
fn keeps<S: Part<State>>(book: &Book, states: S, a: usize, k: usize) -> bool
    ensures { Says (KeptFrom (book_system book.now) (S.items states) a k) result }
{
    for i in a..states.len() {
        if book.kept(k, states.at(i)) {
            return true;
        }
    }
    false
}
