// Reason 0 along stored moves: each unstruck place names a next place that is unstruck, its way on. A round looks again only at places
// whose way on was struck since; who finds no other falls.
ghost use Rattle.std.specs.Prelude.{◌≡◌, ◌<◌, ◌≤◌, length};
ghost use Rattle.meaning.specs.Promises.{most_states};
ghost use Rattle.watch_along.specs.Along.{Readable};
ghost use Rattle.watch_along.specs.Ends.{Blank, Ahead, Going, CutOff, WayOn, Lookable, Looked, Endable, Ended};

use super::{Forth, redirect};
use watch::{NOBODY, fall, list_alone};

// Before the first round no way on is known.
pub fn blank(row: &mut [u16])
    ensures { Blank row.new × (length row.new ≡ length row.old) }
{
    row.fill(NOBODY);
}

// Cuts off the places whose way on was struck since: these stand in the log behind its first m, up to the place returned.
fn cut(
    words: &[u32],
    row: &mut [u16],
    back: &[u16],
    log: &mut [u16],
    from: usize,
    m: usize,
) -> usize
    requires { Going words.now row.old back.now log.old from m × (length log.old ≤ most_states) }
    ensures { CutOff words.now row.old row.new back.now log.old
        log.new m result }
{
    let mut tail = m;
    // `loosen` goes on to those that it cut off, and this does not: one function for both would take a flag, and is no plainer
    for h in from..m {
        let t = log[h];
        let place = t as usize;
        tail = redirect(words, row, back, place, t, NOBODY, log, tail);
    }
    tail
}

// The places that need a way on, behind the log's first m: before the first round, when `from` is above m, all unstruck ones; else those
// cut off.
fn lost(
    words: &[u32],
    row: &mut [u16],
    back: &[u16],
    log: &mut [u16],
    from: usize,
    m: usize,
) -> usize
    requires { Ahead words.now row.old back.now log.old from m × (length log.old ≤ most_states) }
    ensures { CutOff words.now row.old row.new back.now log.old
        log.new m result }
{
    // the choice that `lost` of watching makes, between other steps with other promises: one function that takes the steps is no plainer
    if m < from {
        return list_alone(words, row, log, m);
    }
    cut(words, row, back, log, from, m)
}

// The first next place of place i, of r places, that is unstruck.
fn way_on(words: &[u32], forth: Forth, r: usize, i: usize) -> Option<usize>
    requires { Readable forth.rows.now r × (i < r) × (r ≤ length words.now) }
    ensures { WayOn words.now forth.entry.rows.now r i result }
{
    forth.first_next(r, i, |j| words[j] == 0)
}

// Gives the log's places from m up to `tail` a way on, where there is one.
fn look(words: &[u32], row: &mut [u16], forth: Forth, log: &[u16], m: usize, tail: usize)
    requires { Lookable words.now row.old forth.rows.now log.now m tail }
    ensures { Looked words.now row.old row.new forth.entry.rows.now log.now m tail }
{
    for g in m..tail {
        let i = log[g] as usize;
        if let Some(j) = way_on(words, forth, row.len(), i) {
            row[i] = j as u16;
        }
    }
}

// Reason 0 of a round: strikes together the places with no move to an unstruck place; how long the log then is.
pub fn phase(
    words: &mut [u32],
    row: &mut [u16],
    forth: &[u16],
    back: &[u16],
    log: &mut [u16],
    m: usize,
    from: usize,
    word: u32,
) -> usize
    requires { Endable words.old row.old forth.now back.now log.old m from word }
    ensures { Ended words.old words.new row.old row.new forth.now
        back.now log.old log.new m result word }
{
    // three steps as in `phase` of watching, each with another promise: one function that takes the steps is no plainer
    let tail = lost(words, row, back, log, from, m);
    look(words, row, Forth { rows: forth }, log, m, tail);
    fall(words, row, log, m, tail, word)
}
