// The rounds by tests of pairs of places, where the moves are not stored. Row 0 has the pointers of the dead ends, row i a witness for
// promise i; the struck places stand in a log in the order in which they fell, so that a promise's phase looks again only at what fell
// since its last one.
#![tactic(auto)]

ghost use Rattle.std.specs.Prelude.{◌≡◌, length};
ghost use Rattle.ground.specs.Wiping.{Zeros};
ghost use Rattle.rounds.specs.Phases.{Stricken};
ghost use Rattle.rounds_tests.specs.Tests.{RunnableByTests, TestsDone, StrikableByTests};

use ground::State;
use rounds::{Course, Turn, begin_rows};
use rules::Book;

// One phase by tests: strikes together, for one reason, the places that it does not save; how long the log then is.
fn phase(
    book: &Book,
    table: &[State],
    words: &mut [u32],
    wit: &mut [u16],
    signs: &[u64],
    log: &mut [u16],
    line: &mut [u16],
    r: usize,
    turn: Turn,
) -> usize
    requires { RunnableByTests book.now table.now words.old wit.old signs.now log.old line.old r turn.reason turn.word
        turn.m turn.from }
    ensures { TestsDone book.now table.now words.old words.new wit.old
        wit.new log.old log.new r turn.reason turn.word turn.m result
        × (length line.new ≡ length line.old) }
{
    let Turn {
        reason,
        word,
        m,
        from,
    } = turn;
    if reason == 0 {
        return ends_tests::dead_ends(book, table, words, &mut wit[..r], signs, log, m, word);
    }
    let lo = reason * r;
    let hi = lo + r;
    watch_tests::phase(
        book,
        table,
        words,
        &mut wit[lo..hi],
        signs,
        log,
        m,
        from,
        line,
        word,
    )
}

// The rounds by tests, from words and pointers that are all 0; how many states are left.
pub fn strike_rounds(
    book: &Book,
    table: &[State],
    words: &mut [u32],
    r: usize,
    signs: &[u64],
    wit: &mut [u16],
    log: &mut [u16],
    line: &mut [u16],
) -> usize
    requires { StrikableByTests book.now table.now words.old r signs.now wit.old log.old line.old × Zeros words.old r }
    ensures { Stricken book.now table.now r words.old words.new result }
{
    begin_rows(book, table, r, wit);
    let p = book.promises();
    let mut course = Course::first(r);
    // no range counts the phases: they end where one for each reason in a row has struck nothing
    while course.quiet <= p {
        let turn = course.turn();
        let end = phase(book, table, words, wit, signs, log, line, r, turn);
        course.go_on(end, end, p);
    }
    course.left
}
