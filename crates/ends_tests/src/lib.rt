// Dead ends: reason 0 of a round strikes together the states with no move to an unstruck state. Each unstruck place keeps a pointer to its
// first next state that is unstruck; only where that one has been struck since is the next one sought. A state without a next state is
// found by listing.
#![tactic(auto)]

ghost use Rattle.std.specs.Prelude.{◌+◌, ◌^◌, ◌<◌, ◌≤◌, length, get_or, IfSome};
ghost use Rattle.ground.specs.Says.{Says};
ghost use Rattle.table_lookup.specs.Lookup.{StandsAt};
ghost use Rattle.distances.specs.Far.{Unstruck};
ghost use Rattle.ends_tests.specs.Phases.{Striking, DeadDone, Counts, Pending};
ghost use Rattle.ends_tests.specs.Searching.{Searchable, Goes, Finds, place_behind};

use ground::State;
use rules::Book;
use watch::named;

// So many places are tested before the next states are listed: mostly a next state stands among them, and a listing costs more than a test.
const FRONT: usize = 2048;

// Whether a word counts as unstruck in the phase that gives `word`: what fell in this very phase still does.
fn counts(x: u32, word: u32) -> bool
    ensures { Says (Counts word x) result }
{
    x == 0 || x == word
}

// A search for a place that place i moves to and that counts in the phase that gives `word`, among the first r.
#[derive(Clone, Copy)]
struct Search<'a, 'b> {
    book: &'a Book<'b>,
    table: &'a [State],
    words: &'a [u32],
    r: usize,
    signs: &'a [u64],
    i: usize,
    word: u32,
}

impl Search<'_, '_> {
    // Whether place j will do.
    fn goes(&self, j: usize) -> bool
        requires { Searchable self.now × (j < self.now.r) }
        ensures { Says (Goes self.now j) result }
    {
        counts(self.words[j], self.word)
            && rules_signs::meets(self.book, self.table, self.r, self.signs, self.i, j)
    }

    // The first place from `lo` on and below `hi` that will do.
    fn seek(&self, lo: usize, hi: usize) -> Option<usize>
        requires { Searchable self.now × (hi ≤ self.now.r) }
        ensures { Finds self.now hi lo result }
    {
        for j in lo..hi {
            if self.goes(j) {
                return Some(j);
            }
        }
        None
    }

    // Whether x stands at place p and counts there.
    fn still_stands(&self, p: usize, x: State) -> bool
        requires { (self.now.r ≤ length self.now.table.now) × (self.now.r ≤ length self.now.words.now) }
        ensures { Says (StandsAt self.now.table.now self.now.r p x
            × Counts self.now.word (get_or self.now.words.now p 0)) result }
    {
        table_lookup::stands(self.table, self.r, p, x) && counts(self.words[p], self.word)
    }

    // The first place that will do, if it is known that none before `lo` does. The least next state is listed: no place before it is a
    // next state, since the table rises.
    fn seek_listed(&self, lo: usize) -> Option<usize>
        requires { Searchable self.now }
        ensures { Finds self.now self.now.r lo result }
    {
        let mut one = [0 as State; 1];
        if walk_listing::next_states(self.book, self.table[self.i], &mut one) == 0 {
            return None;
        }
        let least = one[0];
        let p = table_lookup::place(self.table, self.r, least, self.i);
        if self.still_stands(p, least) {
            return Some(p);
        }
        self.seek(lo.max(p), self.r)
    }

    // The first place behind a known one, or the first of all, that will do.
    fn seek_behind(&self, known: Option<usize>) -> Option<usize>
        requires { Searchable self.now × IfSome known (λ j. j + 1 < 2 ^ 64) }
        ensures { Finds self.now self.now.r (place_behind known) result }
    {
        if let Some(j) = known {
            return self.seek(j + 1, self.r);
        }
        if self.r <= FRONT {
            return self.seek(0, self.r);
        }
        if let Some(j) = self.seek(0, FRONT) {
            return Some(j);
        }
        self.seek_listed(FRONT)
    }
}

// Whether place i is unstruck and its pointer must move: the place that it names, if it names one, counts no more.
fn pending(words: &[u32], i: usize, pointer: Option<usize>, word: u32) -> bool
    requires { (i < length words.now) × (Unstruck words.now i → IfSome pointer (λ j. j < length words.now)) }
    ensures { Pending words.now i pointer word result }
{
    if words[i] != 0 {
        return false;
    }
    match pointer {
        Some(j) => !counts(words[j], word),
        None => true,
    }
}

// Reason 0: strikes together the states with no move to an unstruck state, and writes their places into the log; how long the log then is.
pub fn dead_ends(
    book: &Book,
    table: &[State],
    words: &mut [u32],
    row: &mut [u16],
    signs: &[u64],
    log: &mut [u16],
    m: usize,
    word: u32,
) -> usize
    requires { Striking book.now table.now words.old row.old signs.now log.old m word }
    ensures { DeadDone book.now table.now word words.old words.new row.old
        row.new log.old log.new m result }
{
    let r = row.len();
    let mut end = m;
    for i in 0..r {
        let pointer = named(row[i]);
        if pending(words, i, pointer, word) {
            let search = Search {
                book,
                table,
                words: &*words,
                r,
                signs,
                i,
                word,
            };
            if let Some(j) = search.seek_behind(pointer) {
                let after = j + 1;
                row[i] = after as u16;
            } else {
                words[i] = word;
                log[end] = i as u16;
                end += 1;
            }
        }
    }
    end
}
