// Watching a promise by tests of pairs, where the moves are too many to be stored. A phase looks again only at places whose witnesses were
// cut by a strike since the promise's last phase. The line holds first the places to be spread from, and behind them those that stand
// alone.
#![tactic(auto)]

ghost use Rattle.std.specs.Prelude.{◌≡◌, true, List, ℕ, ◌+◌, ◌<◌, ◌≤◌, length, get_or, IfSome};
ghost use Rattle.ground.specs.Says.{Says};
ghost use Rattle.meaning.specs.Promises.{most_states};
ghost use Rattle.rules.specs.Table.{To};
ghost use Rattle.rules_signs.specs.Signs.{Roomed, Signed};
ghost use Rattle.watch.specs.Witness.{Fresh, Rested, Hangs, Hangable, Rehung};
ghost use Rattle.watch.specs.Turns.{Turnable, Redirected, Loosened, Line, Watched};
ghost use Rattle.watch_tests.specs.Tests.{Anywhere, IsCut, Cuttable, CutBelow, Fronted, Copied, Ranked, Shut, Seen, Noted};
ghost use Rattle.watch_tests.specs.Tests.{Spreading, Testable, HelpsIt, JoinsIt, WatchingByTests};

use ground::State;
use rules::Book;
use watch::{Moves, NOBODY, fall, is_helped, is_so, named};

// Who hangs on so many places or more is looked for in one pass over all places, who hangs on fewer in a pass for each.
const MANY: usize = 4;

// The moves of a table, known by tests of pairs.
#[derive(Clone, Copy)]
struct Pairs<'a> {
    book: &'a Book<'a>,
    table: &'a [State],
    signs: &'a [u64],
}

impl Moves for Pairs<'_> {
    ghost known = { λ s r. Signed s.book.now s.table.now r s.signs.now };

    ghost leads = { λ s i j. To s.book.now s.table.now i j };

    fn seek_helper(&self, words: &[u32], row: &[u16], i: usize) -> Option<usize> {
        for j in 0..row.len() {
            if helps(self, words, row, i, j) {
                return Some(j);
            }
        }
        None
    }
}

// How many places of the line have a witness, and where the log then ends.
#[derive(Clone, Copy)]
struct Divided {
    helped: usize,
    tail: usize,
}

// Gives `to` to the unstruck places whose number is `was`, and puts them into the line behind its first n; how long the line then is.
fn turn(words: &[u32], row: &mut [u16], was: u16, to: u16, line: &mut [u16], n: usize) -> usize
    requires { Turnable words.now row.old was to line.old n }
    ensures { Redirected (λ i. i < length row.old) words.now was to row.old row.new n
        line.old line.new result }
{
    let mut tail = n;
    // as `redirect_chain` of watch_along, over all places and not over a chain of links: one function for both is no plainer
    for i in 0..row.len() {
        if is_so(words, row, i, was) {
            row[i] = to;
            line[tail] = i as u16;
            tail += 1;
        }
    }
    tail
}

// Whether place i is unstruck and hangs on a place that was struck, or that has no witness itself.
fn is_cut(words: &[u32], row: &[u16], i: usize) -> bool
    requires { (i < length row.now) × (length row.now ≤ length words.now) }
    ensures { IsCut words.now row.now i result }
{
    if words[i] != 0 {
        return false;
    }
    let w = row[i] as usize;
    w < row.len() && !is_helped(words, row, w)
}

// One pass over all places: cuts off who hangs on a place that was struck or cut off. They stand in the log behind its first n, up to the
// place returned.
fn cut(words: &[u32], row: &mut [u16], log: &mut [u16], n: usize) -> usize
    requires { Cuttable words.now row.old log.old n }
    ensures { CutBelow words.now row.old row.new log.old log.new n result
        (length row.old) }
{
    let mut tail = n;
    for i in 0..row.len() {
        if is_cut(words, row, i) {
            row[i] = NOBODY;
            log[tail] = i as u16;
            tail += 1;
        }
    }
    tail
}

// Cuts off who hangs on a place that was struck since, or on one that is cut off: these stand in the log behind its first m, up to the
// place returned. Who hangs on many places of the log is found in one pass.
fn loosen(words: &[u32], row: &mut [u16], log: &mut [u16], from: usize, m: usize) -> usize
    requires { Rested words.now row.old Anywhere log.old from m × (length log.old ≤ most_states) }
    ensures { Loosened words.now row.old row.new log.old log.new m result }
{
    let mut tail = m;
    let mut h = from;
    // the log grows while it is walked: a `for` would stop at where it ended at first
    while h < tail {
        if tail - h < MANY {
            let t = log[h];
            tail = turn(words, row, t, NOBODY, log, tail);
            h += 1;
        } else {
            h = tail;
            tail = cut(words, row, log, h);
        }
    }
    tail
}

// Before the promise's first phase: the unstruck places that have a witness stand in the line's front, those that nobody helps in the log
// behind its first m.
fn divide(words: &[u32], row: &[u16], log: &mut [u16], m: usize, line: &mut [u16]) -> Divided
    requires { Fresh words.now row.now log.old m × (length log.old ≤ most_states) × Line row.now line.old }
    ensures { Loosened words.now row.now row.now log.old log.new m result.tail
        × Fronted words.now row.now (length row.now) line.old line.new result.helped
        × (result.helped + result.tail ≤ m + length row.now) }
{
    let mut helped: usize = 0;
    let mut tail = m;
    for i in 0..row.len() {
        if words[i] == 0 {
            if row[i] == NOBODY {
                log[tail] = i as u16;
                tail += 1;
            } else {
                line[helped] = i as u16;
                helped += 1;
            }
        }
    }
    Divided { helped, tail }
}

// Copies the log's places from m up to `tail` into the line behind its first n; how long the line then is.
fn copy(log: &[u16], m: usize, tail: usize, line: &mut [u16], n: usize) -> usize
    requires { (m ≤ tail) × (tail ≤ length log.now) × (n + tail ≤ m + length line.old) × (length log.now ≤ most_states)
        × (length line.old ≤ most_states) }
    ensures { Copied log.now m tail line.old line.new n result }
{
    let mut k = n;
    let mut g = m;
    // a loop, since `copy_from_slice` calls memmove, and the archives call memset and memcpy alone
    while g < tail {
        line[k] = log[g];
        k += 1;
        g += 1;
    }
    k
}

// Whether a move leads from place i to place j, of r places.
fn meets(pairs: &Pairs, r: usize, i: usize, j: usize) -> bool
    requires { Signed pairs.now.book.now pairs.now.table.now r pairs.now.signs.now × (i < r) × (j < r) }
    ensures { Says (To pairs.now.book.now pairs.now.table.now i j) result }
{
    rules_signs::meets(pairs.book, pairs.table, r, pairs.signs, i, j)
}

// Whether place j is unstruck, has a witness, and place i moves to it.
fn helps(pairs: &Pairs, words: &[u32], row: &[u16], i: usize, j: usize) -> bool
    requires { Signed pairs.now.book.now pairs.now.table.now (length row.now) pairs.now.signs.now
        × (i < length row.now) × (j < length row.now) × (length row.now ≤ length words.now) }
    ensures { HelpsIt words.now row.now (To pairs.now.book.now pairs.now.table.now) i j result }
{
    is_helped(words, row, j) && meets(pairs, row.len(), i, j)
}

// Hangs those of the line's first k places that have a helper on it, and brings them to the front; how many those are.
fn ask(pairs: &Pairs, words: &[u32], row: &mut [u16], line: &mut [u16], k: usize) -> usize
    requires { Testable pairs.now.book.now pairs.now.table.now words.now row.old pairs.now.signs.now line.old k
        × Hangs words.now row.old row.old (To pairs.now.book.now pairs.now.table.now)
        × Ranked words.now row.old line.old 0 k }
    ensures { Spreading words.now row.old row.new (To pairs.now.book.now pairs.now.table.now)
        line.new 0 result k × (length line.new ≡ length line.old) }
{
    let mut n: usize = 0;
    for g in 0..k {
        let i = line[g] as usize;
        if let Some(j) = pairs.helper(words, row, i) {
            row[i] = j as u16;
            line.swap(n, g);
            n += 1;
        }
    }
    n
}

// Whether place i is unstruck, stands alone and moves to place t.
fn joins(pairs: &Pairs, words: &[u32], row: &[u16], i: usize, t: usize) -> bool
    requires { Signed pairs.now.book.now pairs.now.table.now (length row.now) pairs.now.signs.now
        × (i < length row.now) × (t < length row.now) × (length row.now ≤ length words.now) }
    ensures { JoinsIt words.now row.now (To pairs.now.book.now pairs.now.table.now) i t result }
{
    is_so(words, row, i, NOBODY) && meets(pairs, row.len(), i, t)
}

// Of the line's places behind its first n, up to k, hangs those that stand alone and move to its place at `head` on that, and brings them
// forward; how many places of the line then have a witness.
fn sift(
    pairs: &Pairs,
    words: &[u32],
    row: &mut [u16],
    line: &mut [u16],
    head: usize,
    from: usize,
    k: usize,
) -> usize
    requires { Testable pairs.now.book.now pairs.now.table.now words.now row.old pairs.now.signs.now line.old k
        × Spreading words.now row.old row.old (To pairs.now.book.now pairs.now.table.now) line.old head from k
        × (head < from) }
    ensures { Spreading words.now row.old row.new (To pairs.now.book.now pairs.now.table.now)
        line.new head result k × Shut words.now row.new (To pairs.now.book.now pairs.now.table.now)
        (get_or line.old head 0) × (get_or line.new head 0 ≡ get_or line.old head 0) × (from ≤ result)
        × (length line.new ≡ length line.old) }
{
    let t = line[head];
    let place = t as usize;
    let mut n = from;
    for g in from..k {
        let i = line[g] as usize;
        if joins(pairs, words, row, i, place) {
            row[i] = t;
            line.swap(n, g);
            n += 1;
        }
    }
    n
}

// Which of `count` slots is place t's, of r places. None where few are left: then they are not asked, and they only get fewer.
fn slot_of(signs: &[u64], r: usize, t: usize, left: usize, count: usize) -> Option<usize>
    requires { Roomed r signs.now × (t < r) × (0 < count) }
    ensures { IfSome result (λ q. q < count) }
{
    if left <= rules_signs::FEW_WAITING {
        return None;
    }
    Some(rules_signs::slot(signs, r, t, count))
}

// Whether it is sure that nobody who stands alone moves to place t: whoever does moves to a noted place, too.
fn is_shut(pairs: &Pairs, row: &[u16], seen: &[u16], t: usize, left: usize) -> bool
    requires { Signed pairs.now.book.now pairs.now.table.now (length row.now) pairs.now.signs.now
        × (t < length row.now) × (0 < length seen.now) }
    ensures { result ≡ true → (words : List ℕ) → Seen words row.now
        (To pairs.now.book.now pairs.now.table.now) seen.now
        → Shut words row.now (To pairs.now.book.now pairs.now.table.now) t }
{
    let r = row.len();
    let Some(q) = slot_of(pairs.signs, r, t, left, seen.len()) else {
        return false;
    };
    let Some(place) = named(seen[q]) else {
        return false;
    };
    place < r && rules_signs::stricter(pairs.book, pairs.table, r, pairs.signs, place, t)
}

// Notes that place t was spread from, if it has a slot.
fn note(signs: &[u64], r: usize, seen: &mut [u16], t: usize, left: usize)
    requires { Roomed r signs.now × (t < r) × (r ≤ most_states) × (0 < length seen.old) }
    ensures { Noted seen.old seen.new t }
{
    if let Some(q) = slot_of(signs, r, t, left, seen.len()) {
        let noted = t + 1;
        seen[q] = noted as u16;
    }
}

// From each of the line's first n places in turn, hangs the places on it that move to it and have no witness, until nobody stands alone. A
// place is passed by if it is sure that there are none: the slots have places that were spread from.
fn spread_noting(
    pairs: &Pairs,
    words: &[u32],
    row: &mut [u16],
    line: &mut [u16],
    n: usize,
    k: usize,
    seen: &mut [u16],
)
    requires { Testable pairs.now.book.now pairs.now.table.now words.now row.old pairs.now.signs.now line.old k
        × Spreading words.now row.old row.old (To pairs.now.book.now pairs.now.table.now) line.old 0 n k
        × Seen words.now row.old (To pairs.now.book.now pairs.now.table.now) seen.old × (0 < length seen.old) }
    ensures { Rehung words.now row.old row.new (To pairs.now.book.now pairs.now.table.now)
        × (length line.new ≡ length line.old) }
{
    let r = row.len();
    let mut tail = n;
    let mut head: usize = 0;
    // the line grows while it is walked: a `for` would stop at where it ended at first
    while head < tail {
        if tail == k {
            return;
        }
        let t = line[head] as usize;
        let left = k - tail;
        if !is_shut(pairs, row, seen, t, left) {
            tail = sift(pairs, words, row, line, head, tail, k);
            note(pairs.signs, r, seen, t, left);
        }
        head += 1;
    }
}

// The same with slots in which no place stands yet. Where few stand alone the slots are never asked, and one is enough.
fn spread(pairs: &Pairs, words: &[u32], row: &mut [u16], line: &mut [u16], n: usize, k: usize)
    requires { Testable pairs.now.book.now pairs.now.table.now words.now row.old pairs.now.signs.now line.old k
        × Spreading words.now row.old row.old (To pairs.now.book.now pairs.now.table.now) line.old 0 n k }
    ensures { Rehung words.now row.old row.new (To pairs.now.book.now pairs.now.table.now)
        × (length line.new ≡ length line.old) }
{
    let left = k - n;
    if left <= rules_signs::FEW_WAITING {
        let mut slot = [0u16; 1];
        spread_noting(pairs, words, row, line, n, k, &mut slot);
        return;
    }
    let mut slots = [0u16; rules_signs::SLOTS];
    spread_noting(pairs, words, row, line, n, k, &mut slots);
}

// Gives the places in the log from m up to `tail` a witness, where there is one.
fn rehang_lost(
    pairs: &Pairs,
    words: &[u32],
    row: &mut [u16],
    log: &[u16],
    m: usize,
    tail: usize,
    line: &mut [u16],
)
    requires { Testable pairs.now.book.now pairs.now.table.now words.now row.old pairs.now.signs.now line.old (length row.old)
        × Hangable words.now row.old (To pairs.now.book.now pairs.now.table.now) log.now m tail
        × (tail ≤ length row.old) × (length log.now ≤ most_states) }
    ensures { Rehung words.now row.old row.new (To pairs.now.book.now pairs.now.table.now)
        × (length line.new ≡ length line.old) }
{
    let k = copy(log, m, tail, line, 0);
    let n = ask(pairs, words, row, line, k);
    spread(pairs, words, row, line, n, k);
}

// The promise's first phase: witnesses spread from all places that keep it.
fn first_phase(
    pairs: &Pairs,
    words: &mut [u32],
    row: &mut [u16],
    log: &mut [u16],
    m: usize,
    line: &mut [u16],
    word: u32,
) -> usize
    requires { WatchingByTests pairs.now.book.now pairs.now.table.now words.old row.old pairs.now.signs.now log.old line.old
        m (m + 1) word }
    ensures { Watched words.old words.new row.old row.new
        (To pairs.now.book.now pairs.now.table.now) log.old log.new m result word
        × (length line.new ≡ length line.old) }
{
    let d = divide(words, row, log, m, line);
    let k = copy(log, m, d.tail, line, d.helped);
    spread(pairs, words, row, line, d.helped, k);
    fall(words, row, log, m, d.tail, word)
}

// One phase of a promise: strikes together the places from which no witnesses lead on to it; how long the log then is. Before the first
// one, `from` is above m.
pub fn phase(
    book: &Book,
    table: &[State],
    words: &mut [u32],
    row: &mut [u16],
    signs: &[u64],
    log: &mut [u16],
    m: usize,
    from: usize,
    line: &mut [u16],
    word: u32,
) -> usize
    requires { WatchingByTests book.now table.now words.old row.old signs.now log.old line.old m from word }
    ensures { Watched words.old words.new row.old row.new
        (To book.now table.now) log.old log.new m result word
        × (length line.new ≡ length line.old) }
{
    let pairs = Pairs { book, table, signs };
    // `from` above m says that there was no phase yet: what this contract says may not change
    if m < from {
        return first_phase(&pairs, words, row, log, m, line, word);
    }
    let tail = loosen(words, row, log, from, m);
    rehang_lost(&pairs, words, row, log, m, tail, line);
    fall(words, row, log, m, tail, word)
}
