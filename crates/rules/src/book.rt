// A book's layout: where each number of a compiled sheet stands. Only this module knows where a row begins and where its numbers stand in
// it; they are read and written here. specs/Book.antt says the same: `limits_from`, for one, is LIMITS.from there.
ghost use Rattle.std.specs.Prelude.{◌≡◌, ◌+◌, ◌*◌, ◌≤◌, ◌<◌, length};
ghost use Rattle.rules.specs.Book.{book_size, gather_size, most_rules, limit_width, least_at, right_at, gathered_at, limit_row, row_holds};
ghost use Rattle.rules.specs.Book.{letters_of, limits_of, firsts_of, steps_of, promises_of, CountsAre, Shaped, MasksRead};
ghost use Rattle.meaning.specs.Sheet.{most_letters, most_limits, most_promises};
ghost use Rattle.rules.specs.Rows.{Put};

use super::tally::Literals;
use ground::{MOST_LIMITS, MOST_PROMISES, MOST_RULES};
use std::marker::Model;

// A book's numbers are as wide as a state.
pub use ground::State;

// Rows of one kind, one behind another: where the first begins, and how many numbers each has.
#[derive(Clone, Copy)]
pub struct Rows {
    from: usize,
    width: usize,
    ghost near: { from + width * most_rules ≤ 65536 },
}

impl Rows {
    // Where row i begins.
    pub fn at(self, i: usize) -> usize
        requires { i ≤ most_rules }
        ensures { result ≡ self.from + self.width * i }
    {
        self.from + self.width * i
    }
}

// A list's row has its two masks; a limit's its masks, the least and the most; a step rule's the masks of its sides.
const LIST_WIDTH: usize = 2;

const LIMIT_WIDTH: usize = 4;

const STEP_WIDTH: usize = 4;

// Where the numbers stand in a limit's row behind its masks, the most behind the least; and a step rule's right side in its row.
const LEAST: usize = LIST_WIDTH;

pub const RIGHT: usize = LIST_WIDTH;

// The rows of a book, the limits' behind the counts; and how many numbers a book has.
pub const LIMITS: Rows = Rows {
    from: 8,
    width: LIMIT_WIDTH,
};

pub const FIRSTS: Rows = Rows {
    from: LIMITS.from + LIMIT_WIDTH * MOST_LIMITS,
    width: LIST_WIDTH,
};

pub const STEPS: Rows = Rows {
    from: FIRSTS.from + LIST_WIDTH * MOST_RULES,
    width: STEP_WIDTH,
};

pub const PROMISES: Rows = Rows {
    from: STEPS.from + STEP_WIDTH * MOST_RULES,
    width: LIST_WIDTH,
};

pub const BOOK_SIZE: usize = PROMISES.from + LIST_WIDTH * MOST_PROMISES;

// The rows of the lists that are gathered from a book, and how many numbers they take: at most one list for each rule.
pub const GATHERED: Rows = Rows {
    from: 0,
    width: LIST_WIDTH,
};

pub const GATHER_SIZE: usize = LIST_WIDTH * MOST_RULES;

// A limit's row: its masks, and the least and the most of its literals that may be true.
#[derive(Clone, Copy)]
pub struct Bounded {
    pub held: State,
    pub unheld: State,
    pub least: State,
    pub most: State,
}

impl Bounded {
    // Whether the limit holds in s.
    pub fn holds(self, s: State) -> bool
        ensures { result ≡ row_holds s self }
    {
        let among = Literals {
            held: self.held,
            unheld: self.unheld,
        };
        let count = among.count(s);
        self.least <= count && count <= self.most
    }
}

// A sheet's book: its numbers, in the shape that a sheet's have. A contract sees the numbers, and their shape is what every book has.
#[derive(Drop)]
pub struct Book<'a> {
    pub numbers: &'a [State],
}

impl<'a> Model for Book<'a> {
    ghost use Rattle.std.specs.Prelude.{List, ℕ};

    ghost Value = { List ℕ };

    ghost use Rattle.rules.specs.Book.{Shaped};

    ghost view = { λ b. b.numbers.now };

    ghost invariant = { λ b. Shaped b.numbers.now };
}

impl<'a> Book<'a> {
    // Says what every book is, for a proof that needs it, and does nothing.
    pub fn shaped(&self)
        ensures { Shaped self.now }
    {
        let _ = &self.numbers;
    }

    // How many letters the sheet has. Each count keeps its function: `count(book, 3)` is no plainer than `steps(book)`.
    pub fn letters(&self) -> u32
        ensures number { result ≡ letters_of self.now }
        ensures few { result ≤ most_letters }
    {
        self.numbers[0] as u32
    }

    // How many limits the sheet has.
    pub fn limits(&self) -> usize
        ensures number { result ≡ limits_of self.now }
        ensures few { result ≤ most_limits }
    {
        self.numbers[1] as usize
    }

    // How many first rules the sheet has.
    pub fn firsts(&self) -> usize
        ensures number { result ≡ firsts_of self.now }
        ensures few { result ≤ most_rules }
    {
        self.numbers[2] as usize
    }

    // How many step rules the sheet has.
    pub fn steps(&self) -> usize
        ensures number { result ≡ steps_of self.now }
        ensures few { result ≤ most_rules }
    {
        self.numbers[3] as usize
    }

    // How many promises the sheet has.
    pub fn promises(&self) -> usize
        ensures number { result ≡ promises_of self.now }
        ensures few { result ≤ most_promises }
    {
        self.numbers[4] as usize
    }

    // Limit i.
    pub fn limit(&self, i: usize) -> Bounded
        requires { i < limits_of self.now }
        ensures { result ≡ limit_row self.now i }
    {
        let numbers = self.numbers;
        let at = LIMITS.at(i);
        let Literals { held, unheld } = masks_at(numbers, at);
        Bounded {
            held,
            unheld,
            least: numbers[at + LEAST],
            most: numbers[at + LEAST + 1],
        }
    }
}

// Writes the five counts.
pub fn put_counts(
    book: &mut [State],
    letters: State,
    limits: State,
    firsts: State,
    steps: State,
    promises: State,
)
    requires { length book.old ≡ book_size }
    ensures counts { CountsAre book.new letters limits firsts steps promises }
    ensures long { length book.new ≡ book_size }
{
    book[0] = letters;
    book[1] = limits;
    book[2] = firsts;
    book[3] = steps;
    book[4] = promises;
}

// Where the masks of step rule i's right side stand.
pub fn right_at(i: usize) -> usize
    requires { i ≤ most_rules }
    ensures { result ≡ right_at i }
{
    STEPS.at(i) + RIGHT
}

// The two masks that stand at a place.
pub fn masks_at(l: &[State], at: usize) -> Literals
    requires { at + 1 < length l.now }
    ensures { MasksRead l.now at result }
{
    Literals {
        held: l[at],
        unheld: l[at + 1],
    }
}

// Writes two masks at a place.
pub fn put_masks(l: &mut [State], at: usize, m: Literals)
    requires { at + 1 < length l.old }
    ensures { Put l.old at m.held m.unheld l.new }
{
    l[at] = m.held;
    l[at + 1] = m.unheld;
}

// Writes a limit's least and most into the row that begins at `row`.
pub fn put_bounds(book: &mut [State], row: usize, least: State, most: State)
    requires { row + limit_width ≤ length book.old }
    ensures { Put book.old (least_at row) least most book.new }
{
    let at = row + LEAST;
    book[at] = least;
    book[at + 1] = most;
}

// Gathered list i.
pub fn gathered(l: &[State], i: usize) -> Literals
    requires { (length l.now ≡ gather_size) × (i < most_rules) }
    ensures { MasksRead l.now (gathered_at i) result }
{
    masks_at(l, GATHERED.at(i))
}
