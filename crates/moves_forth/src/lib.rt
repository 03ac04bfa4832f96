// Moves forth: for each of a table's first r places a row of the places that it moves to, one row for each class of states.
#![tactic(auto)]

ghost use Rattle.std.specs.Prelude.{◌≡◌, true, ℕ, ◌<◌, ◌≤◌, length, get_or, IfSome};
ghost use Rattle.rules.specs.Book.{book_lawful};
ghost use Rattle.table_lookup.specs.Lookup.{Sorted};
ghost use Rattle.meaning.specs.Promises.{most_states};
ghost use Rattle.moves.specs.Layout.{most_cells, moves_size, cells_of, start_at, end_at, HasRow, CellsOnly, PlaceSet};
ghost use Rattle.moves.specs.Moves.{SameMoves, Storable};
ghost use Rattle.moves_forth.specs.Storing.{Nexts, Listed, list_size, Filled, ForthStored};

use ground::State;
use rules::Book;

// How many next states of one place are stored at most.
const LIST: usize = 256;

// How many cells the rows forth may take: so many at first, and so many more for each place. A sheet with many classes of many next states
// is over that soon, and little work is lost; one with a few such classes is not.
const FIRST_CELLS: usize = 4096;

const CELLS_EACH: usize = 4;

// How many places a class must have, on average, for a second try.
const PLACES_EACH: usize = 4;

// Writes from `at` on, ascending, the places below r where a listed state stands; the cell after the last one written, or none where there
// is no room for all of them. The cells before `at` stay as they were. A state is likely to stand one place past the last.
fn look_up(table: &[State], r: usize, list: &[State], at: usize, cells: &mut [u16]) -> Option<usize>
    requires { Sorted table.now r × (r ≤ most_states) × Sorted list.now (length list.now) × (at ≤ length cells.old)
        × (length cells.old ≤ most_cells) }
    ensures row { IfSome result (λ to. Filled (Listed list.now (length list.now) table.now r) at cells.old cells.new to) }
    ensures before { (e : ℕ) → e < at → get_or cells.new e 0 ≡ get_or cells.old e 0 }
{
    let mut to = at;
    let mut likely: usize = 0;
    for x in list {
        let p = table_lookup::place(table, r, *x, likely);
        if table_lookup::stands(table, r, p, *x) {
            if to == cells.len() {
                return None;
            }
            cells[to] = p as u16;
            to += 1;
            likely = p + 1;
        } else {
            likely = p;
        }
    }
    Some(to)
}

// The row of a place with state s, written into the cells from `at` on: its next states are listed, and each is looked up. One with more
// than there is room for is not stored: where states have many next states, a path to anywhere is short and testing pairs finds it soon.
fn row(
    book: &Book,
    s: State,
    table: &[State],
    r: usize,
    room: &mut [State],
    at: usize,
    moves: &mut [u16],
) -> Option<usize>
    requires { Storable book.now table.now r × (book_lawful book.now s ≡ true) × (length room.old ≡ list_size)
        × (at ≤ most_cells) × (length moves.old ≡ moves_size) }
    ensures row { IfSome result (λ to. Filled (Nexts book.now table.now r s) at (cells_of moves.old)
        (cells_of moves.new) to) }
    ensures before { (e : ℕ) → e < at → get_or (cells_of moves.new) e 0 ≡ get_or (cells_of moves.old) e 0 }
    ensures rest { CellsOnly moves.old moves.new }
{
    let n = walk_listing::next_states(book, s, room);
    if n > room.len() {
        None
    } else {
        let cells = &mut moves[moves::CELLS..moves::LINKS];
        look_up(table, r, &room[..n], at, cells)
    }
}

// Whether place k stands before place i, and the states of both move to the same states.
fn same_moves(book: &Book, table: &[State], k: usize, i: usize) -> bool
    requires { i < length table.now }
    ensures { result ≡ true → SameMoves book.now table.now k i }
{
    if k >= i {
        return false;
    }
    let u = table[k];
    let s = table[i];
    book.freer(u, s) && book.freer(s, u)
}

// Gives place i the row of place k, and links it to that place.
fn share_row(moves: &mut [u16], i: usize, k: usize)
    requires { (length moves.old ≡ moves_size) × (i < most_states) × HasRow moves.old k × (start_at moves.old k ≤ most_cells) }
    ensures { PlaceSet i (start_at moves.old k) (end_at moves.old k) k moves.old moves.new }
{
    let start = moves::row_start(moves, k);
    let end = moves::row_end(moves, k);
    moves::set_place(moves, i, start, end, k);
}

// How moves are stored: soon or not at all, or patiently, where each row so far may have taken `each` cells on average.
#[derive(Clone, Copy)]
enum Pace {
    Soon,
    Patient { each: u16 },
}

impl Pace {
    // How many cells the rows so far may take, if place i is to be stored: so many at first, and so many more for each place before i, or
    // for each row so far.
    fn budget(self, i: usize, rows: usize) -> usize
        requires { (i ≤ most_states) × (rows ≤ i) }
    {
        match self {
            Pace::Soon => FIRST_CELLS + CELLS_EACH * i,
            Pace::Patient { each } => FIRST_CELLS + each as usize * rows,
        }
    }

    // How lucky a search is after a miss. A patient one goes on as before.
    fn missed(self, luck: usize) -> usize {
        match self {
            Pace::Soon => luck / 2,
            Pace::Patient { .. } => luck,
        }
    }
}

// Stores the moves forth of the table's first r places; false where there is no room for all of them, or they are over the budget. A class
// has one row: a place whose state moves where an earlier one's does gets the earlier one's row, if that place is found, and a link to it.
fn store_rows(
    book: &Book,
    table: &[State],
    r: usize,
    pace: Pace,
    moves: &mut [u16],
    places: &mut [u16],
) -> bool
    requires { Storable book.now table.now r × (length moves.old ≡ moves_size) × (length places.old ≡ moves_size) }
    ensures { ForthStored book.now table.now r moves.new result }
{
    let mut room = [0 as State; LIST];
    let mut luck = rules_classes::LUCKY;
    let mut rows: usize = 0;
    let mut at: usize = 0;
    for i in 0..r {
        if at > pace.budget(i, rows) {
            return false;
        }
        let s = table[i];
        let found = rules_classes::found(book, s, i, luck, places);
        if same_moves(book, table, found, i) {
            share_row(moves, i, found);
            luck = rules_classes::LUCKY;
        } else {
            let Some(to) = row(book, s, table, r, &mut room, at, moves) else {
                return false;
            };
            moves::set_place(moves, i, at, to, moves::NONE);
            at = to;
            rows += 1;
            luck = pace.missed(luck);
        }
    }
    true
}

// The same patiently, where there are few classes for so many places: the first places may all be of different classes, and have many next
// states each. The classes are counted, and no row may take more than its share of the cells, on average. One class more is counted, so
// that there is a share where none was met.
fn store_patiently(
    book: &Book,
    table: &[State],
    r: usize,
    moves: &mut [u16],
    places: &mut [u16],
) -> bool
    requires { Storable book.now table.now r × (length moves.old ≡ moves_size) × (length places.old ≡ moves_size) }
    ensures { ForthStored book.now table.now r moves.new result }
{
    places.fill(0);
    let few = r / PLACES_EACH;
    let met = rules_classes::number(book, table, r, few, places);
    if met > few {
        return false;
    }
    let each = (moves::MOST_CELLS / (met + 1)) as u16;
    store_rows(book, table, r, Pace::Patient { each }, moves, places)
}

// Stores the moves forth of the table's first r places, soon or patiently; false where that cannot be done. The places of classes are
// remembered in the room that is lent for them; what it holds does not matter.
pub fn store_forth(
    book: &Book,
    table: &[State],
    r: usize,
    moves: &mut [u16],
    places: &mut [u16],
) -> bool
    requires { Storable book.now table.now r × (length moves.old ≡ moves_size) × (length places.old ≡ moves_size) }
    ensures { ForthStored book.now table.now r moves.new result × (length moves.new ≡ moves_size)
        × (length places.new ≡ moves_size) }
{
    store_rows(book, table, r, Pace::Soon, moves, places)
        || store_patiently(book, table, r, moves, places)
}
