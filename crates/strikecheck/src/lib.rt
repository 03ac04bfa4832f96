// The strike checker: whether a proposed strike list (states and words) shows that the sheet cannot be kept. It stands on the sheet reader,
// the compiled rules and the counting walk alone, and changes nothing.
//
// The theorem: each call returns the fault's number, 1 to 10, of a bad sheet; else 0 exactly if document 01 accepts the paper, else 14.
// On numbers it returns the fault's place as well, 0 on the other answers. (`check_strikes` and `check_strikes_bytes` below;
// that 0 leaves no obeying run is said in proofs/Exactly.antt.)
#![tactic(auto)]

ghost use Rattle.std.specs.Prelude.{◌≡◌};
ghost use Rattle.std.proofs.Math.Option.{none};
ghost use Rattle.meaning.specs.Sheet.{first_fault};
ghost use Rattle.meaning.specs.Papers.{StrikesAccepted};
ghost use Rattle.meaning.specs.Promises.{system_in, Placed, StrikesPlaced, StrikesBytesChecked};
ghost use Rattle.ground.specs.Says.{Says};
ghost use Rattle.rules.specs.Book.{book_system};
ghost use Rattle.strikes_covers.specs.Asks.{AllLawful};
ghost use Rattle.strikes_entries.specs.Entries.{Rising};
ghost use Rattle.strikecheck.specs.Strikes.{ReasonsFit, PaperAccepted, PaperChecked};

use papers::answer::{Verdict, on_paper};
use papers::{Part, State};
use rules::Book;
use strikes_apart::all_different;
use strikes_covers::firsts_listed;
use strikes_entries::entries_right;

// Checks a strike list. 0 exactly if document 01 accepts it (then no run obeys the sheet), 1 to 10 for a bad sheet and the place of its
// fault, else 14.
pub fn check_strikes(sheet: &[u8], states: &[State], words: &[u32]) -> Verdict
    ensures { StrikesPlaced sheet.now states.now words.now result.answer result.place }
{
    check(sheet, states, words)
}

// The same with states and words as bytes, four each, big-endian, and without the place; a length that is no multiple of four gets 14.
pub fn check_strikes_bytes(sheet: &[u8], states: &[u8], words: &[u8]) -> u32
    ensures { StrikesBytesChecked sheet.now states.now words.now result }
{
    check(sheet, states, words).answer
}

// The sheet first, then the paper. The run checker has the same for its paper: one for both would be told how a paper is accepted, and
// would be no plainer than these two cases.
fn check<S: Part<State>, W: Part<u32>>(sheet: &[u8], states: S, words: W) -> Verdict
    ensures { Placed sheet.now
        (PaperChecked sheet.now (S.whole states) (W.whole words) (S.items states) (W.items words))
        result.answer result.place }
{
    match reader::read_in_numbers(sheet) {
        Ok(()) => on_paper(paper_accepted(sheet, states, words)),
        Err(v) => v,
    }
}

// For a good sheet: whether no byte is left over, and the list is accepted.
fn paper_accepted<S: Part<State>, W: Part<u32>>(sheet: &[u8], states: S, words: W) -> bool
    requires { first_fault sheet.now ≡ none }
    ensures { Says (PaperAccepted (system_in sheet.now) (S.whole states) (W.whole words) (S.items states) (W.items words))
        result }
{
    if !states.is_whole() || !words.is_whole() {
        return false;
    }
    let mut numbers = [0 as State; rules::BOOK_SIZE];
    compile::compile(sheet, &mut numbers);
    let book = Book { numbers: &numbers };
    accepted(&book, states, words)
}

// Whether the list is accepted.
fn accepted<S: Part<State>, W: Part<u32>>(book: &Book, states: S, words: W) -> bool
    ensures { Says (StrikesAccepted (book_system book.now) (S.items states) (W.items words)) result }
{
    if words.len() != states.len() {
        return false;
    }
    if !words_rise(words) {
        return false;
    }
    if !reasons_fit(book, words) {
        return false;
    }
    if !all_lawful(book, states) {
        return false;
    }
    book.shaped();
    let distinct = all_different(states);
    if !firsts_listed(book, states, distinct) {
        return false;
    }
    entries_right(book, states, words, distinct)
}

// Whether the words never fall.
fn words_rise<W: Part<u32>>(words: W) -> bool
    ensures { Says (Rising (W.items words)) result }
{
    for i in 1..words.len() {
        if words.at(i) < words.at(i - 1) {
            return false;
        }
    }
    true
}

// Whether each word's remainder by 32 is at most the number of promises.
fn reasons_fit<W: Part<u32>>(book: &Book, words: W) -> bool
    ensures { Says (ReasonsFit (book_system book.now) (W.items words)) result }
{
    let promises = book.promises();
    for i in 0..words.len() {
        let reason = (words.at(i) % 32) as usize;
        if promises < reason {
            return false;
        }
    }
    true
}

// Whether each state is lawful.
fn all_lawful<S: Part<State>>(book: &Book, states: S) -> bool
    ensures { Says (AllLawful (book_system book.now) (S.items states)) result }
{
    for i in 0..states.len() {
        if !book.lawful(states.at(i)) {
            return false;
        }
    }
    true
}
