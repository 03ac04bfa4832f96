// Distances to a promise: for every unstruck state of a table the fewest moves, through unstruck states only, to one where the promise is
// kept. Found backwards from the states that keep it, in one of two ways: along stored moves, or by tests of pairs.

ghost use Rattle.std.specs.Prelude.{◌≡◌, ◌+◌, ◌≤◌, length};
ghost use Rattle.rules.specs.Book.{book_system};
ghost use Rattle.distances.specs.Far.{Measured};
ghost use Rattle.distances.specs.Values.{Measurable};
ghost use Rattle.sample_step.specs.Follow.{Followable};

use ground::State;
use rules::Book;

// The distances to promise k, counted from 0, of the table's first r places, written from `from` on: GONE for a struck place, FAR where no
// path of unstruck states leads to the promise. By the stored moves back where they are stored, else (`back` is empty) by tests of pairs.
pub fn distances(
    book: &Book,
    k: usize,
    table: &[State],
    words: &[u32],
    r: usize,
    back: &[u16],
    queue: &mut [u16],
    dist: &mut [u16],
    from: usize,
    signs: &[u64],
)
    requires { Measurable book.now k table.now words.now r × (from + r ≤ length dist.old)
        × Followable book.now table.now r back.now queue.old signs.now }
    ensures { Measured (book_system book.now) ((book_system book.now).Kept k) table.now
        words.now r from dist.old dist.new × (length queue.new ≡ length queue.old) }
{
    if back.is_empty() {
        distances_tests::by_tests(book, k, table, words, r, queue, dist, from, signs);
    } else {
        distances_along::follow(book, k, table, words, r, back, queue, dist, from);
    }
}
