// The best next state: document 01, "The judge's two papers", first paragraph. The distances from every livable state to every aim, one row
// for each aim, and from a moment of the sample run to the next: the aim passes, and of the next states the nearest is taken, then the
// least. Where the moves are stored, only the stored row is looked at, else places are tested by their signs.
#![tactic(auto)]

ghost use Rattle.std.specs.Prelude.{◌≡◌, ◌*◌, ◌≤◌, ◌<◌, length};
ghost use Rattle.meaning.specs.Sample.{Passes};
ghost use Rattle.ground.specs.Listed.{Between};
ghost use Rattle.rules.specs.Book.{book_system, promises_of};
ghost use Rattle.rules.specs.Table.{To};
ghost use Rattle.rules_signs.specs.Signs.{Signed};
ghost use Rattle.sample_step.specs.Follow.{Followable};
ghost use Rattle.moves.specs.Layout.{start_at, end_at, cells_of};
ghost use Rattle.sample_step.specs.Rows.{aims_of, Rowable, RowsMeasured, Walkable};
ghost use Rattle.sample_step.specs.Step.{FirstPlaceFound, FirstNearest, Below, row_at, FirstAtFound, Scannable};
ghost use Rattle.sample_step.specs.Step.{Lookable, Onward, BestAt, Stepped};

use ground::State;
use rules::Book;

pub mod measure;

// A moment of the walk: the state's place in the table, and the aim on arriving there.
#[derive(Clone, Copy, PartialEq, Eq)]
pub struct Moment {
    pub place: usize,
    pub aim: usize,
}

// ---- distances, once for the whole walk

// Row q, for each promise q.
fn promise_rows(
    book: &Book,
    table: &[State],
    words: &[u32],
    dist: &mut [u16],
    r: usize,
    p: usize,
    back: &[u16],
    queue: &mut [u16],
    signs: &[u64],
)
    requires { Rowable book.now table.now words.now r × (p ≡ promises_of book.now) × (1 ≤ p) × (p * r ≤ length dist.old)
        × Followable book.now table.now r back.now queue.old signs.now }
    ensures { RowsMeasured book.now table.now r dist.old dist.new }
{
    for q in 0..p {
        let from = q * r;
        measure::distances(book, q, table, words, r, back, queue, dist, from, signs);
    }
}

// All rows: row q has the distances from the first r places to aim q.
pub fn rows(
    book: &Book,
    table: &[State],
    words: &[u32],
    dist: &mut [u16],
    r: usize,
    back: &[u16],
    queue: &mut [u16],
    signs: &[u64],
)
    requires { Rowable book.now table.now words.now r × (aims_of (book_system book.now) * r ≤ length dist.old)
        × Followable book.now table.now r back.now queue.old signs.now }
    ensures { RowsMeasured book.now table.now r dist.old dist.new }
{
    let p = book.promises();
    if p == 0 {
        // the one aim asks nothing, and every distance is 0
        dist[..r].fill(0);
    } else {
        promise_rows(book, table, words, dist, r, p, back, queue, signs);
    }
}

// ---- one step

// The first place that holds a first state.
pub fn first_place(book: &Book, table: &[State], r: usize) -> Option<usize>
    requires { r ≤ length table.now }
    ensures { FirstPlaceFound book.now table.now r result }
{
    for place in 0..r {
        if book.first_state(table[place]) {
            return Some(place);
        }
    }
    None
}

// The aim after state s.
fn passed(book: &Book, aim: usize, s: State) -> usize
    requires { (aim < aims_of (book_system book.now)) }
    ensures { Passes (book_system book.now) aim s result × (result < aims_of (book_system book.now)) }
{
    let p = book.promises();
    if p == 0 {
        return 0;
    }
    if book.kept(aim, s) {
        let next = aim + 1;
        if next < p {
            return next;
        }
        return 0;
    }
    aim
}

// The first of the nearest next places of `place`. (`nearest_in_row` goes over a stored row and tests nothing, `first_at` stops at a hit:
// one function of these would be no plainer.)
fn nearest(
    book: &Book,
    table: &[State],
    dist: &[u16],
    r: usize,
    signs: &[u64],
    place: usize,
    from: usize,
) -> usize
    requires { Scannable book.now table.now dist.now r signs.now place from }
    ensures { FirstNearest (Below (To book.now table.now place) r) (row_at dist.now from) result }
{
    let mut best: usize = 0;
    let mut least: u16 = distances::FAR;
    for x in 0..r {
        let d = dist[from + x];
        if d < least && rules_signs::meets(book, table, r, signs, place, x) {
            best = x;
            least = d;
        }
    }
    best
}

// The first next place of `place` at distance `wanted`.
fn first_at(
    book: &Book,
    table: &[State],
    dist: &[u16],
    r: usize,
    signs: &[u64],
    place: usize,
    from: usize,
    wanted: u16,
) -> Option<usize>
    requires { Scannable book.now table.now dist.now r signs.now place from }
    ensures { FirstAtFound (To book.now table.now place) (row_at dist.now from) r wanted result }
{
    for x in 0..r {
        if dist[from + x] == wanted && rules_signs::meets(book, table, r, signs, place, x) {
            return Some(x);
        }
    }
    None
}

// The best next place of `place` for that aim, sought among all places. No next state is nearer than one less than the state's own
// distance; where that distance is not 0, one is as near, so that only places at just that distance are tested.
fn seek(
    book: &Book,
    table: &[State],
    dist: &[u16],
    r: usize,
    place: usize,
    aim: usize,
    signs: &[u64],
) -> usize
    requires { Walkable book.now table.now dist.now r × (place < r) × (aim < aims_of (book_system book.now))
        × Signed book.now table.now r signs.now }
    ensures { BestAt (book_system book.now) table.now r place aim result }
{
    let from = aim * r;
    let wanted = dist[from + place].saturating_sub(1);
    match first_at(book, table, dist, r, signs, place, from, wanted) {
        Some(hit) => hit,
        None => nearest(book, table, dist, r, signs, place, from),
    }
}

// The first of the nearest places in the stored row of `place`.
fn nearest_in_row(dist: &[u16], from: usize, forth: &[u16], place: usize) -> usize
    requires { Lookable dist.now from forth.now place }
    ensures { FirstNearest
        (Between (cells_of forth.now) (start_at forth.now place) (end_at forth.now place))
        (row_at dist.now from) result }
{
    let start = moves::row_start(forth, place);
    let end = moves::row_end(forth, place);
    let mut best: usize = 0;
    let mut least: u16 = distances::FAR;
    for e in start..end {
        let x = moves::cell(forth, e);
        let near = dist[from + x];
        if near < least {
            best = x;
            least = near;
        }
    }
    best
}

// From one moment to the next: where the moves are stored, only the row of its place is looked at, else (`forth` is empty) places are
// tested.
pub fn step(
    book: &Book,
    table: &[State],
    dist: &[u16],
    r: usize,
    at: Moment,
    forth: &[u16],
    signs: &[u64],
) -> Moment
    requires { Walkable book.now table.now dist.now r × (at.place < r) × (at.aim < aims_of (book_system book.now))
        × Onward book.now table.now r forth.now signs.now }
    ensures { Stepped (book_system book.now) table.now r at.place at.aim result.place result.aim }
{
    let aim = passed(book, at.aim, table[at.place]);
    if forth.is_empty() {
        let place = seek(book, table, dist, r, at.place, aim, signs);
        return Moment { place, aim };
    }
    let place = nearest_in_row(dist, aim * r, forth, at.place);
    Moment { place, aim }
}
