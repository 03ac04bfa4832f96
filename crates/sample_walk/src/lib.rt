// The two walks of the sample run: document 01, "The judge's two papers", first paragraph. The distances to every promise are computed
// once; a first walk finds the moment b at which a pair of state and aim comes again, a second one writes the b states, if they fit. The
// caller lends the room, and the moves or the signs by which the next state is found.
#![tactic(auto)]

ghost use Rattle.std.specs.Prelude.{◌≡◌, ◌*◌, ◌≤◌, length};
ghost use Rattle.ground.specs.Wiping.{Zeros};
ghost use Rattle.rules.specs.Book.{book_system};
ghost use Rattle.sample_step.specs.Follow.{Followable};
ghost use Rattle.sample_step.specs.Rows.{aims_of, LivableTable, Walkable};
ghost use Rattle.sample_step.specs.Step.{FirstPlace, Onward};
ghost use Rattle.sample_walk.specs.Walk.{Steerable, Walked, Ended, Known, BackFrom, RunWritten};

use ground::State;
use rules::Book;
use sample_step::Moment;

// a, the moment that the run goes back to, and b, how many states it has. Where the run does not fit a is 0 and no option: the judge hands
// over b alone then, and what `steer` promises stays as it is.
#[derive(Clone, Copy)]
pub struct Steps {
    pub a: u32,
    pub b: u32,
}

// Moment b, whose pair was met before.
#[derive(Clone, Copy)]
pub struct End {
    pub b: usize,
    pub at: Moment,
}

// ---- the two walks. Bit `aim` of a place's word says that the pair was met.

// The first moment: the first of the livable states that is a first state, and aim 0.
fn first_moment(book: &Book, table: &[State], r: usize) -> Moment
    requires { LivableTable book.now table.now r }
    ensures { FirstPlace book.now table.now r result.place × (result.aim ≡ 0) }
{
    let place = sample_step::first_place(book, table, r).unwrap();
    Moment { place, aim: 0 }
}

// Walks to the first moment whose pair of state and aim was met before.
fn find_end(
    book: &Book,
    table: &[State],
    words: &mut [u32],
    dist: &[u16],
    r: usize,
    forth: &[u16],
    signs: &[u64],
) -> End
    requires { Walkable book.now table.now dist.now r × (r ≤ length words.old) × Zeros words.old r
        × Onward book.now table.now r forth.now signs.now }
    ensures { Ended book.now table.now words.old words.new r result.b result.at.place
        result.at.aim }
{
    let mut at = first_moment(book, table, r);
    let mut b: usize = 0;
    // no range counts the moments: they end where a pair comes again
    while !ground::marks::met(words[at.place], at.aim) {
        let next = sample_step::step(book, table, dist, r, at, forth, signs);
        words[at.place] = ground::marks::mark(words[at.place], at.aim);
        at = next;
        b += 1;
    }
    End { b, at }
}

// i where the pair at moment i is that at the end, else a.
fn back_from(a: usize, i: usize, at: Moment, end: Moment) -> usize
    ensures { BackFrom at.place end.place at.aim end.aim i a result }
{
    if at == end { i } else { a }
}

// Walks again and writes the states before the end; the moment that its pair was first met.
fn write_run(
    book: &Book,
    table: &[State],
    run: &mut [State],
    dist: &[u16],
    r: usize,
    end: End,
    forth: &[u16],
    signs: &[u64],
) -> usize
    requires { Known book.now table.now dist.now run.old r end.b end.at.place end.at.aim
        × Onward book.now table.now r forth.now signs.now }
    ensures { RunWritten (book_system book.now) table.now end.b end.at.place end.at.aim run.old run.new result }
{
    let mut at = first_moment(book, table, r);
    let mut a: usize = 0;
    for i in 0..end.b {
        run[i] = table[at.place];
        a = back_from(a, i, at, end.at);
        at = sample_step::step(book, table, dist, r, at, forth, signs);
    }
    a
}

// The whole work, with room for the rows.
pub fn walk(
    book: &Book,
    table: &[State],
    words: &mut [u32],
    run: &mut [State],
    dist: &mut [u16],
    r: usize,
    forth: &[u16],
    back: &[u16],
    queue: &mut [u16],
    signs: &[u64],
) -> Steps
    requires { Steerable book.now table.now words.old r × (aims_of (book_system book.now) * r ≤ length dist.old)
        × Onward book.now table.now r forth.now signs.now
        × Followable book.now table.now r back.now queue.old signs.now }
    ensures { Walked book.now words.old words.new run.old run.new result.a
        result.b }
{
    words[..r].fill(0);
    sample_step::rows(book, table, words, dist, r, back, queue, signs);
    let end = find_end(book, table, words, dist, r, forth, signs);
    let b = end.b as u32;
    if end.b <= run.len() {
        let a = write_run(book, table, run, dist, r, end, forth, signs) as u32;
        return Steps { a, b };
    }
    Steps { a: 0, b }
}
