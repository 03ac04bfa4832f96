// Whether every entry of a strike list shows what it must: the promise of its reason is false in its state, and all next states of that
// state are listed, with a smaller word (reason 0) or with no larger one (any other reason).
//
// It does not search, it counts: words never fall, so "listed with a smaller word" is "among the first m entries"; and all next states are
// among them exactly if there are as many next states as different ones among these entries. A state that may move only where one
// of an earlier entry may needs no count of its own: that entry's next states are among no more than the first m.
#![tactic(auto)]

ghost use Rattle.std.specs.Prelude.{◌≡◌, true, ◌<◌, length};
ghost use Rattle.ground.specs.Says.{Says};
ghost use Rattle.rules.specs.Book.{book_system};
ghost use Rattle.strikes_entries.specs.Entries.{StateOk, KeptBy, places_of, Under, Reach, Follows, EntryAsks, EntriesAsk, EntriesOk};

use papers::{Part, State};
use rules::Book;
use strikes_apart::front::Front;
use strikes_covers::nexts_within;

// Whether every entry shows what it must. Of the words, the first `near` are smaller than the entry's, and the first `far` the same or
// smaller; both only grow. `last` is the entry last counted for; `likely` one whose state is likely of the same class.
pub fn entries_right<S: Part<State>, W: Part<u32>>(
    book: &Book,
    states: S,
    words: W,
    distinct: bool,
) -> bool
    requires { EntriesAsk book.now (S.items states) (W.items words) distinct }
    ensures { Says (EntriesOk (book_system book.now) (S.items states) (W.items words)) result }
{
    let mut near = 0;
    let mut far = 0;
    let mut earlier = [0u16; rules_classes::FEW];
    let mut luck = rules_classes::LUCKY;
    let mut last = 0;
    for i in 0..states.len() {
        let s = states.at(i);
        let word = words.at(i);
        let reason = word % 32;
        let limit = word as u64;
        near = reach(words, near, limit);
        far = reach(words, far, limit + 1);
        let m = places(reason, near, far);
        let likely = rules_classes::likely(book, s, i, luck, &mut earlier);
        let known = follows(book, states, i, likely, last);
        let front = Front {
            states,
            m,
            distinct,
        };
        if !entry_right(book, s, reason, &front, known) {
            return false;
        }
        if known {
            luck = rules_classes::LUCKY;
        } else {
            luck /= 2;
            last = i;
        }
    }
    true
}

// True only if the state of entry `likely` or of entry `last` stands before entry i and may move wherever that one's may: if the earlier
// entry is right, there is nothing to count.
fn follows<S: Part<State>>(book: &Book, states: S, i: usize, likely: usize, last: usize) -> bool
    requires inside { i < length (S.items states) }
    ensures { result ≡ true → Follows book.now (S.items states) i }
{
    shown_by(book, states, i, likely) || shown_by(book, states, i, last)
}

// True only if entry k stands before entry i and its state may move wherever that one's may.
fn shown_by<S: Part<State>>(book: &Book, states: S, i: usize, k: usize) -> bool
    requires inside { i < length (S.items states) }
    ensures { result ≡ true → Follows book.now (S.items states) i }
{
    k < i && book.freer(states.at(k), states.at(i))
}

// From m on, how many words at the front are below the limit.
fn reach<W: Part<u32>>(words: W, from: usize, limit: u64) -> usize
    requires { Under (W.items words) limit from }
    ensures { Reach (W.items words) limit result }
{
    let count = words.len();
    for m in from..count {
        if limit <= words.at(m) as u64 {
            return m;
        }
    }
    count
}

// Reason 0 wants its next states among the nearer places.
fn places(reason: u32, near: usize, far: usize) -> usize
    ensures { result ≡ places_of reason near far }
{
    if reason == 0 { near } else { far }
}

// The reason's promise is false in s, and every next state is in the front, which may be known.
fn entry_right<S: Part<State>>(
    book: &Book,
    s: State,
    reason: u32,
    front: &Front<S>,
    known: bool,
) -> bool
    requires { EntryAsks book.now s (S.items front.now.states) front.now.m known }
    ensures { Says (StateOk (book_system book.now) reason s (S.items front.now.states) front.now.m) result }
{
    if kept_by(book, reason, s) {
        return false;
    }
    if known {
        return true;
    }
    nexts_within(book, s, front)
}

// Whether the reason's promise is true in s; reason 0 has none. Reasons are document 01's numbers.
fn kept_by(book: &Book, reason: u32, s: State) -> bool
    ensures { Says (KeptBy (book_system book.now) reason s) result }
{
    if reason == 0 {
        return false;
    }
    book.kept(reason as usize - 1, s)
}
