// Where stored moves stand in one slice: for each place the cell that its row starts at, then for each place the cell that its row ends
// before, then the cells, then for each place a link to another place of its class. Whoever reads or writes stored moves asks here. Beside
// the code stands what is stored: rows of moves forth, and of moves back.
#![tactic(auto)]

ghost use Rattle.std.specs.Prelude.{◌≡◌, ◌<◌, ◌≤◌, length};
ghost use Rattle.meaning.specs.Promises.{most_states};
ghost use Rattle.moves.specs.Layout.{most_cells, moves_size, most_number, no_link, start_at, end_at, cell_at, link_at};
ghost use Rattle.moves.specs.Layout.{RowSet, LinkSet, PlaceSet, Appended};

// The most cells. Moves are stored for as many places as states are judged.
pub const MOST_CELLS: usize = 16384;

// Where the ends stand from, the cells, and the links.
pub const ENDS: usize = ground::MOST_STATES;

pub const CELLS: usize = ENDS + ground::MOST_STATES;

pub const LINKS: usize = CELLS + MOST_CELLS;

// How long the slice is.
pub const SIZE: usize = LINKS + ground::MOST_STATES;

// The link that leads nowhere. It is one of the numbers that a link may be: the memory is fixed, and has no room beside a link.
pub const NONE: usize = 65535;

// Each reader below knows its own part of the slice. One for all would be told where the part begins, and so every caller would know it.

// The cell that place i's row starts at.
pub fn row_start(moves: &[u16], i: usize) -> usize
    requires { (length moves.now ≡ moves_size) × (i < most_states) }
    ensures { result ≡ start_at moves.now i }
{
    moves[i] as usize
}

// The cell that place i's row ends before.
pub fn row_end(moves: &[u16], i: usize) -> usize
    requires { (length moves.now ≡ moves_size) × (i < most_states) }
    ensures { (result ≡ end_at moves.now i) × (result ≤ most_number) }
{
    let at = ENDS + i;
    moves[at] as usize
}

// The place that stands in cell e.
pub fn cell(moves: &[u16], e: usize) -> usize
    requires { (length moves.now ≡ moves_size) × (e < most_cells) }
    ensures { result ≡ cell_at moves.now e }
{
    let at = CELLS + e;
    moves[at] as usize
}

// Place i's link.
pub fn link(moves: &[u16], i: usize) -> usize
    requires { (length moves.now ≡ moves_size) × (i < most_states) }
    ensures { (result ≡ link_at moves.now i) × (result ≤ no_link) }
{
    let at = LINKS + i;
    moves[at] as usize
}

// Sets place i's link to k.
pub fn set_link(moves: &mut [u16], i: usize, k: usize)
    requires { (length moves.old ≡ moves_size) × (i < most_states) × (k ≤ no_link) }
    ensures { LinkSet i k moves.old moves.new }
{
    let at = LINKS + i;
    moves[at] = k as u16;
}

// Sets row i to the cells from `start` up to `end`.
pub fn set_row(moves: &mut [u16], i: usize, start: usize, end: usize)
    requires { (length moves.old ≡ moves_size) × (i < most_states) × (start ≤ most_cells) × (end ≤ most_cells) }
    ensures { RowSet i start end moves.old moves.new }
{
    let at = ENDS + i;
    moves[i] = start as u16;
    moves[at] = end as u16;
}

// Sets row i to the cells from `start` up to `end`, and place i's link to k.
pub fn set_place(moves: &mut [u16], i: usize, start: usize, end: usize, k: usize)
    requires { (length moves.old ≡ moves_size) × (i < most_states) × (start ≤ most_cells) × (end ≤ most_cells) × (k ≤ no_link) }
    ensures { PlaceSet i start end k moves.old moves.new }
{
    set_row(moves, i, start, end);
    set_link(moves, i, k);
}

// Puts j into the cell behind the end of row i.
pub fn append(moves: &mut [u16], i: usize, j: usize)
    requires { (length moves.old ≡ moves_size) × (i < most_states) × (j < most_states) × (end_at moves.old i < most_cells) }
    ensures { Appended i j moves.old moves.new }
{
    let e = row_end(moves, i);
    let to = CELLS + e;
    let at = ENDS + i;
    let after = e + 1;
    moves[to] = j as u16;
    moves[at] = after as u16;
}
