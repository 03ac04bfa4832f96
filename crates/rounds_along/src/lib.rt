// The rounds along stored moves. Row 0 has a way on for each place, row i a witness for promise i; the struck places stand in a log in the
// order in which they fell, so that a phase looks again only at what fell since its last one (crate watch_along).
#![tactic(auto)]

ghost use Rattle.std.specs.Prelude.{◌≡◌, ◌⊎◌, length};
ghost use Rattle.ground.specs.Wiping.{Zeros};
ghost use Rattle.rounds.specs.Phases.{Stricken};
ghost use Rattle.rounds_along.specs.Along.{RunnableAlong, TurnDone, StrikableAlong};

use ground::State;
use rounds::{Course, Turn, begin_rows};
use rules::Book;

// One phase along stored moves: strikes together, for one reason, the places that it does not save; how long the log then is.
fn phase(
    words: &mut [u32],
    wit: &mut [u16],
    forth: &[u16],
    back: &[u16],
    log: &mut [u16],
    line: &mut [u16],
    r: usize,
    turn: Turn,
) -> usize
    requires { RunnableAlong words.old wit.old forth.now back.now log.old line.old r turn.reason turn.word turn.m
        turn.from }
    ensures { TurnDone words.old words.new wit.old wit.new forth.now
        back.now log.old log.new r turn.reason turn.word turn.m result
        × (length line.new ≡ length line.old) }
{
    let Turn {
        reason,
        word,
        m,
        from,
    } = turn;
    if reason == 0 {
        return watch_along::ends::phase(words, &mut wit[..r], forth, back, log, m, from, word);
    }
    let lo = reason * r;
    let hi = lo + r;
    watch_along::phase(
        words,
        &mut wit[lo..hi],
        forth,
        back,
        log,
        m,
        from,
        line,
        word,
    )
}

// From where on the log is news for a reason after its phase: for reason 0 those struck in the phase itself, too.
fn news_from(reason: usize, m: usize, end: usize) -> usize
    ensures { ((reason ≡ 0) × (result ≡ m)) ⊎ ((reason ≡ 0 → ⊥) × (result ≡ end)) }
{
    if reason == 0 { m } else { end }
}

// The rounds along stored moves, from words that are all 0; how many states are left. (The rounds by tests have the same few lines: one
// loop over either phase would need a trait, with what each keeps of row 0 as its ghost members, and be no plainer.)
pub fn strike_rounds(
    book: &Book,
    table: &[State],
    words: &mut [u32],
    r: usize,
    forth: &[u16],
    back: &[u16],
    wit: &mut [u16],
    log: &mut [u16],
    line: &mut [u16],
) -> usize
    requires { StrikableAlong book.now table.now words.old r forth.now back.now wit.old log.old line.old
        × Zeros words.old r }
    ensures { Stricken book.now table.now r words.old words.new result }
{
    watch_along::ends::blank(&mut wit[..r]);
    begin_rows(book, table, r, wit);
    let p = book.promises();
    let mut course = Course::first(r);
    // no range counts the phases: they end where one for each reason in a row has struck nothing
    while course.quiet <= p {
        let turn = course.turn();
        let end = phase(words, wit, forth, back, log, line, r, turn);
        let since = news_from(course.reason, course.m, end);
        course.go_on(end, since, p);
    }
    course.left
}
