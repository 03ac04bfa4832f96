// What the rounds of striking share, along stored moves and by tests: a row for each reason, the promises' rows filled, and which phase
// comes after which. The specs say what striking asks and promises, the laws that phase by phase the words come to it.
#![tactic(auto)]

ghost use Rattle.std.specs.Prelude.{◌≡◌, ◌⊎◌, ◌+◌, ◌<◌, ◌≤◌, suc, length};
ghost use Rattle.rounds.specs.Courses.{first_course, turn_of, Goable, GoneOn};
ghost use Rattle.rounds.specs.Rows.{Beginnable, BegunRows};

use ground::State;
use rules::Book;

// How many reasons there are at most, a dead end and each promise; and where the log is news from for one that had no phase yet: above
// every place.
pub const REASONS: usize = 1 + ground::MOST_PROMISES;

pub const NEVER: u16 = 65535;

// A phase: its reason, and the word that it gives. The log's first m are the places struck so far; from `from` on they were struck since
// this reason's last phase.
#[derive(Clone, Copy)]
pub struct Turn {
    pub reason: usize,
    pub word: u32,
    pub m: usize,
    pub from: usize,
}

// How far the rounds have come: from where on the log is news for each reason, how many places it has, how many states are left; 32 times
// the round of the next phase, its reason, and how many phases in a row have struck nothing.
#[derive(Clone, Copy)]
pub struct Course {
    pub news: [u16; REASONS],
    pub m: usize,
    pub left: usize,
    pub base: u32,
    pub reason: usize,
    pub quiet: usize,
}

impl Course {
    // Before the first phase, with r states.
    pub fn first(r: usize) -> Course
        ensures { result ≡ first_course r }
    {
        Course {
            news: [NEVER; REASONS],
            m: 0,
            left: r,
            base: 32,
            reason: 0,
            quiet: 0,
        }
    }

    // The next phase.
    pub fn turn(&self) -> Turn
        requires { (length self.now.news ≡ 17) × (self.now.reason ≤ 16) × (self.now.base < 1000000) }
        ensures { result ≡ turn_of self.now }
    {
        Turn {
            reason: self.reason,
            word: self.base + self.reason as u32,
            m: self.m,
            from: self.news[self.reason] as usize,
        }
    }

    // Past that phase, with p promises: the log now has `end` places, and what stands from `since` on is news for its reason.
    pub fn go_on(&mut self, end: usize, since: usize, p: usize)
        requires { Goable self.old end since p }
        ensures { GoneOn self.old end since p self.new }
    {
        let n = end - self.m;
        self.news[self.reason] = since as u16;
        self.m = end;
        self.left -= n;
        self.quiet = rested(self.quiet, n);
        self.base = base_after(self.base, self.reason, p);
        self.reason = reason_after(self.reason, p);
    }
}

// Fills the rows of the promises: for each promise who keeps it.
pub fn begin_rows(book: &Book, table: &[State], r: usize, wit: &mut [u16])
    requires { Beginnable book.now table.now r wit.old }
    ensures { BegunRows book.now table.now r wit.old wit.new }
{
    for k in 0..book.promises() {
        let from = (k + 1) * r;
        let end = from + r;
        watch::begin(book, k, table, &mut wit[from..end]);
    }
}

// How many phases in a row have struck nothing, after one that struck n.
pub fn rested(quiet: usize, n: usize) -> usize
    requires { quiet ≤ 16 }
    ensures { ((n ≡ 0) × (result ≡ suc quiet)) ⊎ ((n ≡ 0 → ⊥) × (result ≡ 0)) }
{
    if n == 0 { quiet + 1 } else { 0 }
}

// The reason of the next phase.
pub fn reason_after(reason: usize, p: usize) -> usize
    requires { (reason ≤ p) × (p ≤ 16) }
    ensures { ((reason < p) × (result ≡ suc reason)) ⊎ ((reason ≡ p) × (result ≡ 0)) }
{
    if reason < p { reason + 1 } else { 0 }
}

// 32 times the round of the next phase.
pub fn base_after(base: u32, reason: usize, p: usize) -> u32
    requires { (base < 1000000) × (reason ≤ p) }
    ensures { ((reason < p) × (result ≡ base)) ⊎ ((reason ≡ p) × (result ≡ base + 32)) }
{
    if reason < p { base } else { base + 32 }
}
