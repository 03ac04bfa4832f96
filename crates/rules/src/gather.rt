// The rules gathered for one state.
ghost use Rattle.std.specs.Prelude.{◌≡◌, ◌+◌, ◌<◌, ◌≤◌, length};
ghost use Rattle.rules.specs.Book.{clauses_ok, gather_size, most_rules, steps_of, Binds, FirstClauses, NextClauses};
ghost use Rattle.rules.specs.Rows.{Copied};

use super::ask::{each_below, some_at};
use super::book::{Book, FIRSTS, GATHERED, State, masks_at, put_masks, right_at};

// Copies the two masks at a place of the book to place `to`.
fn copy(book: &[State], from: usize, l: &mut [State], to: usize)
    requires { (from + 1 < length book.now) × (to + 1 < length l.old) }
    ensures { Copied book.now from l.old to l.new }
{
    put_masks(l, to, masks_at(book, from));
}

impl<'a> Book<'a> {
    // Gathers the clauses that a first state must make true, into a slice of GATHER_SIZE numbers; how many there are.
    pub fn gather_first(&self, clauses: &mut [State]) -> usize
        requires { length clauses.old ≡ gather_size }
        ensures { FirstClauses self.now clauses.new result × (length clauses.new ≡ gather_size) }
    {
        let numbers = self.numbers;
        let count = self.firsts();
        for i in 0..count {
            copy(numbers, FIRSTS.at(i), clauses, GATHERED.at(i));
        }
        count
    }

    // False only if step rule i allows every move from s: its left side is false there, or its right side names a letter and its opposite.
    fn binds(&self, i: usize, s: State) -> bool
        requires { i < steps_of self.now }
        ensures { Binds self.now s i result }
    {
        if !self.step_asks(i, s) {
            return false;
        }
        let right = masks_at(self.numbers, right_at(i));
        right.held & right.unheld == 0
    }

    // Gathers the clauses that a state after s must make true, without those that every state makes true, into a slice of GATHER_SIZE
    // numbers; how many there are. Each clause costs something at every state that is walked or counted.
    pub fn gather_next(&self, s: State, clauses: &mut [State]) -> usize
        requires { length clauses.old ≡ gather_size }
        ensures { NextClauses self.now s clauses.new result × (length clauses.new ≡ gather_size) }
    {
        let numbers = self.numbers;
        let mut n = 0;
        for i in 0..self.steps() {
            if self.binds(i, s) {
                copy(numbers, right_at(i), clauses, GATHERED.at(n));
                n += 1;
            }
        }
        n
    }
}

// Whether t makes all gathered clauses true.
pub fn fits(clauses: &[State], count: usize, t: State) -> bool
    requires { (length clauses.now ≡ gather_size) × (count ≤ most_rules) }
    ensures { result ≡ clauses_ok clauses.now count t }
{
    each_below(count, |i| some_at(clauses, GATHERED.at(i), t))
}
