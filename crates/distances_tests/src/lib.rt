// Distances to a promise by tests of pairs, layer by layer: each state of the last layer is looked at once, and only against the states
// that are not reached yet, which are listed, unless another state did as much before it. The list is a lent slice with its length beside
// it: there is no heap.
#![tactic(auto)]

ghost use Rattle.std.specs.Prelude.{◌≡◌, true, ◌+◌, ◌<◌, ◌≤◌, length, get_or};
ghost use Rattle.ground.specs.Says.{Says};
ghost use Rattle.rules.specs.Book.{book_system};
ghost use Rattle.rules.specs.Table.{To};
ghost use Rattle.rules_signs.specs.Signs.{Signed};
ghost use Rattle.distances.specs.Far.{Measured, gone};
ghost use Rattle.distances.specs.Values.{Measurable};
ghost use Rattle.distances_tests.specs.Layers.{Listed, Sifted, Spreadable, LayerSifted, LayersDone, Done, Serves, Served};

use ground::State;
use rules::Book;

// Gives d to the listed places that move to place j, and closes the gaps that they leave in the list; how many places are left there.
fn spread(
    book: &Book,
    table: &[State],
    signs: &[u64],
    j: usize,
    d: u16,
    left: usize,
    list: &mut [u16],
    near: &mut [u16],
) -> usize
    requires { Listed (length near.old) left list.old near.old × Signed book.now table.now (length near.old) signs.now
        × (j < length near.old) × (d < gone) }
    ensures { Sifted (λ i. To book.now table.now i j) d (length near.old) left result
        near.old near.new list.old list.new }
{
    let r = near.len();
    let mut kept: usize = 0;
    for i in 0..left {
        let x = list[i];
        if rules_signs::meets(book, table, r, signs, x as usize, j) {
            near[x as usize] = d;
        } else {
            list[kept] = x;
            kept += 1;
        }
    }
    kept
}

// Whether the moves to place k are known, while layer d is spread and its places below j are done.
fn known(near: &[u16], d: u16, j: usize, k: usize) -> bool
    requires { k < length near.now }
    ensures { Says (Done d j k (get_or near.now k 0)) result }
{
    let x = near[k];
    if x == d { k < j } else { x < d }
}

// Whether it is sure that place k serves for place j.
fn serves(
    book: &Book,
    table: &[State],
    r: usize,
    d: u16,
    j: usize,
    k: usize,
    near: &[u16],
    signs: &[u64],
) -> bool
    requires { Signed book.now table.now r signs.now × (j < r) × (length near.now ≡ r) }
    ensures { result ≡ true → Serves book.now table.now r d j k near.now }
{
    k < r && known(near, d, j, k) && rules_signs::stricter(book, table, r, signs, k, j)
}

// Whether it is sure that another place serves for place j, so that it need not be spread from: the last one that was, of those with the
// same slot. Not looked for where few places are left, since they are soon tested. If none does, j is the last one.
fn served(
    book: &Book,
    table: &[State],
    r: usize,
    d: u16,
    j: usize,
    left: usize,
    near: &[u16],
    places: &mut [u16],
    signs: &[u64],
) -> bool
    requires { Signed book.now table.now r signs.now × (j < r) × (length near.now ≡ r) × (0 < length places.old) }
    ensures { (result ≡ true → Served book.now table.now r d j near.now)
        × (length places.new ≡ length places.old) }
{
    if left <= rules_signs::FEW_WAITING {
        return false;
    }
    let q = rules_signs::slot(signs, r, j, places.len());
    let k = places[q] as usize;
    if serves(book, table, r, d, j, k, near, signs) {
        return true;
    }
    places[q] = j as u16;
    false
}

// Spreads layer d: gives d + 1 to the listed places, which are not reached yet, that move into it; how many are left in the list. Stops
// where none is. A place for which another serves is passed by.
fn layer(
    book: &Book,
    table: &[State],
    r: usize,
    d: u16,
    left: usize,
    list: &mut [u16],
    near: &mut [u16],
    places: &mut [u16],
    signs: &[u64],
) -> usize
    requires { Spreadable book.now table.now r d left list.old near.old signs.now × (0 < length places.old) }
    ensures { LayerSifted book.now table.now r d left result near.old near.new
        list.old list.new × (length places.new ≡ length places.old) }
{
    let next = d + 1;
    let mut kept = left;
    for j in 0..r {
        if kept == 0 {
            return kept;
        }
        if near[j] == d && !served(book, table, r, d, j, kept, near, places, signs) {
            kept = spread(book, table, signs, j, next, kept, list, near);
        }
    }
    kept
}

// Spreads the layers one after the other, until one reaches nothing or none of the listed places, which are not reached yet, is left.
fn layers(
    book: &Book,
    table: &[State],
    r: usize,
    listed: usize,
    list: &mut [u16],
    near: &mut [u16],
    places: &mut [u16],
    signs: &[u64],
)
    requires { Listed r listed list.old near.old × Signed book.now table.now r signs.now × (0 < length places.old) }
    ensures { LayersDone book.now table.now r near.old near.new
        × (length list.new ≡ length list.old) }
{
    let mut left = listed;
    let mut d: u16 = 0;
    // How many layers there are is known only once they are spread.
    while left > 0 {
        let kept = layer(book, table, r, d, left, list, near, places, signs);
        if kept == left {
            return;
        }
        left = kept;
        d += 1;
    }
}

// The distances of the table's first r places, written from `from` on; the queue is room for a list of places. Where few places are left at
// the beginning the table of those spread from is never asked, so it is not made. What a slot holds is tested before it is believed, so
// that zeros will do at first.
pub fn by_tests(
    book: &Book,
    k: usize,
    table: &[State],
    words: &[u32],
    r: usize,
    queue: &mut [u16],
    dist: &mut [u16],
    from: usize,
    signs: &[u64],
)
    requires { Measurable book.now k table.now words.now r × (from + r ≤ length dist.old) × (r ≤ length queue.old)
        × Signed book.now table.now r signs.now }
    ensures { Measured (book_system book.now) ((book_system book.now).Kept k) table.now
        words.now r from dist.old dist.new × (length queue.new ≡ length queue.old) }
{
    let near = &mut dist[from..from + r];
    distances::begin(book, k, table, words, r, near);
    let left = distances::line_up(near, r, distances::FAR, queue);
    if left <= rules_signs::FEW_WAITING {
        layers(book, table, r, left, queue, near, &mut [0], signs);
    } else {
        let places = &mut [0; rules_signs::SLOTS];
        layers(book, table, r, left, queue, near, places, signs);
    }
}
