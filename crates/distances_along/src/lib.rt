// Distances to a promise along stored moves, with a queue, in time linear in places and moves. The queue is a lent slice with its length
// beside it: there is no heap.
#![tactic(auto)]

ghost use Rattle.std.specs.Prelude.{◌≡◌, ◌+◌, ◌<◌, ◌≤◌, length};
ghost use Rattle.rules.specs.Book.{book_system};
ghost use Rattle.moves.specs.Layout.{Linked, Backed};
ghost use Rattle.moves.specs.Moves.{Back};
ghost use Rattle.distances.specs.Far.{Measured};
ghost use Rattle.distances.specs.Values.{Measurable};
ghost use Rattle.distances_along.specs.Follow.{Ready, RowReady, Followed};

use ground::State;
use rules::Book;

// Gives d to the places on the chain that begins with place c that are not reached yet, and puts them into the queue behind its first
// `tail`; how many those are.
fn follow_chain(
    moves: &[u16],
    c: usize,
    d: u16,
    near: &mut [u16],
    tail: usize,
    queue: &mut [u16],
) -> usize
    requires { Ready moves.now d (length near.old) near.old queue.old tail × (c < length near.old) }
    ensures { Followed (λ i. Linked moves.now c i) d (length near.old) near.old near.new
        tail queue.old queue.new result }
{
    let mut got: usize = 0;
    let mut i = c;
    // A chain goes from link to link, so that no range counts its places.
    while i < near.len() {
        if near[i] == distances::FAR {
            near[i] = d;
            queue[tail + got] = i as u16;
            got += 1;
        }
        i = moves::link(moves, i);
    }
    got
}

// The same of all places that move to place j: those on the chains of the places in its row.
fn follow_row(
    moves: &[u16],
    j: usize,
    d: u16,
    near: &mut [u16],
    tail: usize,
    queue: &mut [u16],
) -> usize
    requires { RowReady moves.now j d (length near.old) near.old queue.old tail }
    ensures { Followed (λ i. Backed moves.now i j) d (length near.old) near.old near.new
        tail queue.old queue.new result }
{
    let mut got: usize = 0;
    for e in moves::row_start(moves, j)..moves::row_end(moves, j) {
        let c = moves::cell(moves, e);
        got += follow_chain(moves, c, d, near, tail + got, queue);
    }
    got
}

// The distances of the table's first r places, written from `from` on, by the stored moves back: from each place of the queue in turn, its
// row is followed.
pub fn follow(
    book: &Book,
    k: usize,
    table: &[State],
    words: &[u32],
    r: usize,
    back: &[u16],
    queue: &mut [u16],
    dist: &mut [u16],
    from: usize,
)
    requires { Measurable book.now k table.now words.now r × (from + r ≤ length dist.old)
        × Back book.now table.now r back.now × (r ≤ length queue.old) }
    ensures { Measured (book_system book.now) ((book_system book.now).Kept k) table.now
        words.now r from dist.old dist.new × (length queue.new ≡ length queue.old) }
{
    let near = &mut dist[from..from + r];
    distances::begin(book, k, table, words, r, near);
    let mut tail = distances::line_up(near, r, 0, queue);
    let mut head: usize = 0;
    // The queue grows while it is walked.
    while head < tail {
        let j = queue[head] as usize;
        let d = near[j] + 1;
        tail += follow_row(back, j, d, near, tail, queue);
        head += 1;
    }
}
