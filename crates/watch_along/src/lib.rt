// Watching a promise along stored moves. A phase looks again only at places whose witnesses were cut by a strike since the promise's last
// phase, and at those that hang on them; who finds no new witness falls.
#![tactic(auto)]

ghost use Rattle.std.specs.Prelude.{◌≡◌, List, ℕ, ◌+◌, ◌<◌, ◌≤◌, length};
ghost use Rattle.meaning.specs.Promises.{most_states};
ghost use Rattle.moves.specs.Layout.{Linked, Backed};
ghost use Rattle.watch.specs.Witness.{nobody, Rested, Hangable, Rehung};
ghost use Rattle.watch.specs.Turns.{count_met_at, Redirected, Loosened, Line, Before, Watched};
ghost use Rattle.watch_along.specs.Along.{Leads, Readable, NextWith, Walkable, Woven, Redirectable, Passable};
ghost use Rattle.watch_along.specs.Along.{InLine, Hanging, Askable, Asked, Watching};

use watch::{Moves, NOBODY, fall, is_helped, is_so, list_alone};

pub mod ends;

// Moves that are stored, forth: each place's row has its next places.
#[derive(Clone, Copy)]
struct Forth<'a> {
    rows: &'a [u16],
}

impl Forth<'_> {
    // The first next place of place i, of r places, that passes a test.
    fn first_next<F: Fn(usize) -> bool>(&self, r: usize, i: usize, test: F) -> Option<usize>
        requires readable { Readable self.now.rows.now r × (i < r) }
        requires testable { (j : ℕ) → j < r → F.pre test j }
        ensures { NextWith self.now.rows.now r i (F.post test) result }
    {
        for e in moves::row_start(self.rows, i)..moves::row_end(self.rows, i) {
            let j = moves::cell(self.rows, e);
            if test(j) {
                return Some(j);
            }
        }
        None
    }
}

impl Moves for Forth<'_> {
    ghost known = { λ s r. Readable s.rows.now r };

    ghost leads = { λ s i j. Leads s.rows.now i j };

    fn seek_helper(&self, words: &[u32], row: &[u16], i: usize) -> Option<usize> {
        self.first_next(row.len(), i, |j| is_helped(words, row, j))
    }
}

// Of the places on the chain that begins with place c, gives `to` to the unstruck ones whose number is `was`, and puts them into the line
// behind its first n; how long the line then is.
fn redirect_chain(
    words: &[u32],
    row: &mut [u16],
    back: &[u16],
    c: usize,
    was: u16,
    to: u16,
    line: &mut [u16],
    n: usize,
) -> usize
    requires { Passable words.now row.old back.now was to line.old n × (c < length row.old) }
    ensures { Redirected (λ i. Linked back.now c i) words.now was to row.old row.new n
        line.old line.new result }
{
    let r = row.len();
    let mut tail = n;
    let mut i = c;
    // a chain of links is walked, and not a range: a `for` over an iterator of its own is no plainer
    while i < r {
        if is_so(words, row, i, was) {
            row[i] = to;
            line[tail] = i as u16;
            tail += 1;
        }
        i = moves::link(back, i);
    }
    tail
}

// Of the places that move to place t, gives `to` to the unstruck ones whose number is `was`, and puts them into the line behind its first
// n; how long the line then is.
fn redirect(
    words: &[u32],
    row: &mut [u16],
    back: &[u16],
    t: usize,
    was: u16,
    to: u16,
    line: &mut [u16],
    n: usize,
) -> usize
    requires { Redirectable words.now row.old back.now t was to line.old n }
    ensures { Redirected (λ i. Backed back.now i t) words.now was to row.old row.new n
        line.old line.new result }
{
    let mut tail = n;
    for e in moves::row_start(back, t)..moves::row_end(back, t) {
        let c = moves::cell(back, e);
        tail = redirect_chain(words, row, back, c, was, to, line, tail);
    }
    tail
}

// Cuts off who hangs on a place that was struck since, or on one that is cut off: these stand in the log behind its first m, up to the
// place returned.
fn loosen(
    words: &[u32],
    row: &mut [u16],
    back: &[u16],
    log: &mut [u16],
    from: usize,
    m: usize,
) -> usize
    requires { Rested words.now row.old (Backed back.now) log.old from m × Walkable back.now (length row.old)
        × (length log.old ≤ most_states) }
    ensures { Loosened words.now row.old row.new log.old log.new m result }
{
    let mut tail = m;
    let mut h = from;
    // the log grows while it is walked: a `for` would stop at where it ended at first
    while h < tail {
        let t = log[h];
        let place = t as usize;
        tail = redirect(words, row, back, place, t, NOBODY, log, tail);
        h += 1;
    }
    tail
}

// The places that need a witness, behind the log's first m: before the first phase, when `from` is above m, all without one; else those cut
// off.
fn lost(
    words: &[u32],
    row: &mut [u16],
    back: &[u16],
    log: &mut [u16],
    from: usize,
    m: usize,
) -> usize
    requires { Before words.now row.old (Backed back.now) log.old from m × Walkable back.now (length row.old)
        × (length log.old ≤ most_states) }
    ensures { Loosened words.now row.old row.new log.old log.new m result }
{
    // `from` above m says that there was no phase yet: `phase` is handed it so, and its contract may not change
    if m < from {
        return list_alone(words, row, log, m);
    }
    loosen(words, row, back, log, from, m)
}

// Hangs those of the log's places from m up to `tail` that have a helper on it, and puts them into the line; how many those are.
fn ask(
    words: &[u32],
    row: &mut [u16],
    forth: Forth,
    log: &[u16],
    m: usize,
    tail: usize,
    line: &mut [u16],
) -> usize
    requires { Askable words.now row.old forth.rows.now log.now m tail line.old }
    ensures { Asked words.now row.old row.new forth.entry.rows.now log.now m tail
        line.old line.new result }
{
    let mut n: usize = 0;
    for g in m..tail {
        let i = log[g] as usize;
        if let Some(j) = forth.helper(words, row, i) {
            row[i] = j as u16;
            line[n] = i as u16;
            n += 1;
        }
    }
    n
}

// From each place of the line in turn, hangs the places on it that move to it and have no witness, and puts them into the line.
fn spread(words: &[u32], row: &mut [u16], back: &[u16], line: &mut [u16], n: usize)
    requires { Walkable back.now (length row.old) × (length row.old ≤ length words.now) × Line row.old line.old
        × (n ≤ length line.old)
        × InLine words.now row.old line.old n × (n + count_met_at nobody words.now row.old ≤ length line.old) }
    ensures { ((old : List ℕ) → Hanging words.now old row.old (Backed back.now) line.old
        0 n → Rehung words.now old row.new (Backed back.now))
        × (length row.new ≡ length row.old) × (length line.new ≡ length line.old) }
{
    let mut tail = n;
    let mut head: usize = 0;
    // the line grows while it is walked: a `for` would stop at where it ended at first
    while head < tail {
        let t = line[head];
        let place = t as usize;
        tail = redirect(words, row, back, place, NOBODY, t, line, tail);
        head += 1;
    }
}

// Gives the places in the log from m up to `tail` a witness, where there is one.
fn rehang(
    words: &[u32],
    row: &mut [u16],
    forth: Forth,
    back: &[u16],
    log: &[u16],
    m: usize,
    tail: usize,
    line: &mut [u16],
)
    requires { Woven (length row.old) forth.rows.now back.now × Hangable words.now row.old (Backed back.now) log.now m tail
        × Line row.old line.old × (length log.now ≤ most_states) }
    ensures { Rehung words.now row.old row.new (Backed back.now)
        × (length line.new ≡ length line.old) }
{
    let n = ask(words, row, forth, log, m, tail, line);
    spread(words, row, back, line, n);
}

// One phase of a promise: strikes together the places from which no witnesses lead on to it; how long the log then is.
pub fn phase(
    words: &mut [u32],
    row: &mut [u16],
    forth: &[u16],
    back: &[u16],
    log: &mut [u16],
    m: usize,
    from: usize,
    line: &mut [u16],
    word: u32,
) -> usize
    requires { Watching words.old row.old forth.now back.now log.old line.old m from word }
    ensures { Watched words.old words.new row.old row.new (Backed back.now)
        log.old log.new m result word × (length line.new ≡ length line.old) }
{
    let tail = lost(words, row, back, log, from, m);
    rehang(words, row, Forth { rows: forth }, back, log, m, tail, line);
    fall(words, row, log, m, tail, word)
}
