// Witnesses, whichever way moves are known. Each unstruck place has a witness: it keeps the promise itself, or it names a next place whose
// witnesses lead on to one that does. Here is what watching along stored moves (crate watch_along) and watching by tests (crate
// watch_tests) share: how a row of witnesses begins, the tests of one place, who stands alone before the first phase, and who falls. The
// struck places stand in a log, in the order in which they fell.
#![tactic(auto)]

ghost use Rattle.std.specs.Prelude.{ℕ, ◌<◌, ◌≤◌, length};
ghost use Rattle.meaning.specs.Promises.{most_states};
ghost use Rattle.rules.specs.Book.{promises_of};
ghost use Rattle.watch.specs.Witness.{BegunRow, Fresh};
ghost use Rattle.watch.specs.Turns.{Names, IsSo, Helps, HelperIn, HelperFor, Loosened, Fallable, FellTo};

use ground::State;
use rules::Book;

// Nobody helps a place; or it keeps the promise itself. Every place's number is less.
pub const NOBODY: u16 = 65535;

pub const ITSELF: u16 = 65534;

// The place that a number of a table names: the number is that place plus one, and 0 names none.
pub fn named(x: u16) -> Option<usize>
    ensures { Names x result }
{
    (x as usize).checked_sub(1)
}

// What each place begins with: it keeps promise k, counted from 0, or nobody helps it yet.
pub fn begin(book: &Book, k: usize, table: &[State], row: &mut [u16])
    requires { (k < promises_of book.now) × (length row.old ≤ length table.now) }
    ensures { BegunRow book.now k table.now row.old row.new }
{
    for (i, number) in row.iter_mut().enumerate() {
        *number = if book.kept(k, table[i]) {
            ITSELF
        } else {
            NOBODY
        };
    }
}

// Whether place i is unstruck and its number is `was`.
pub fn is_so(words: &[u32], row: &[u16], i: usize, was: u16) -> bool
    requires { (i < length words.now) × (i < length row.now) }
    ensures { IsSo words.now row.now i was result }
{
    row[i] == was && words[i] == 0
}

// Whether place j is unstruck and has a witness.
pub fn is_helped(words: &[u32], row: &[u16], j: usize) -> bool
    requires { (j < length words.now) × (j < length row.now) }
    ensures { Helps words.now row.now j result }
{
    words[j] == 0 && row[j] != NOBODY
}

// The moves between the places of a table, however they are known: stored, or by tests of pairs.
pub trait Moves {
    // They are known for the first r places; and place i moves to place j.
    ghost known: { Self → ℕ → Type 0 };

    ghost leads: { Self → ℕ → ℕ → Type 0 };

    // The first place to which place i moves that is unstruck and has a witness.
    fn seek_helper(&self, words: &[u32], row: &[u16], i: usize) -> Option<usize>
        requires { known self.now (length row.now) × (i < length row.now) × (length row.now ≤ length words.now) }
        ensures { HelperIn words.now row.now (leads self.now) i result };

    // The same if place i is unstruck and has no witness itself.
    fn helper(&self, words: &[u32], row: &[u16], i: usize) -> Option<usize>
        requires { known self.now (length row.now) × (i < length row.now) × (length row.now ≤ length words.now) }
        ensures { HelperFor words.now row.now (leads self.now) i result }
    {
        if is_so(words, row, i, NOBODY) {
            return self.seek_helper(words, row, i);
        }
        None
    }
}

// Before the promise's first phase: all unstruck places that nobody helps, behind the log's first m.
pub fn list_alone(words: &[u32], row: &[u16], log: &mut [u16], m: usize) -> usize
    requires { Fresh words.now row.now log.old m × (length log.old ≤ most_states) }
    ensures { Loosened words.now row.now row.now log.old log.new m result }
{
    let mut tail = m;
    for i in 0..row.len() {
        if is_so(words, row, i, NOBODY) {
            log[tail] = i as u16;
            tail += 1;
        }
    }
    tail
}

// Strikes the unstruck places without a witness, which all stand in the log from m up to `tail`; how long the log then is.
pub fn fall(
    words: &mut [u32],
    row: &[u16],
    log: &mut [u16],
    m: usize,
    tail: usize,
    word: u32,
) -> usize
    requires { Fallable words.old row.now log.old m tail word × (length log.old ≤ most_states) }
    ensures { FellTo row.now word words.old words.new log.old log.new m
        result }
{
    let mut end = m;
    for g in m..tail {
        let t = log[g];
        let i = t as usize;
        if is_so(words, row, i, NOBODY) {
            words[i] = word;
            log[end] = t;
            end += 1;
        }
    }
    end
}
