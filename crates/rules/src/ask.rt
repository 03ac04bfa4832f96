// The tests of a book.
ghost use Rattle.std.specs.Prelude.{◌≡◌, true, false, ℕ, ◌+◌, ◌<◌, ◌≤◌, length};
ghost use Rattle.rules.specs.Book.{some_at, all_at, limits_ok, book_lawful, firsts_ok, book_first, step_ok};
ghost use Rattle.rules.specs.Book.{step_at, right_at, steps_ok, book_moves, book_kept, steps_of};

use super::book::{Book, FIRSTS, PROMISES, STEPS, State, masks_at, right_at};

// Whether some literal of the two masks at place `at` is true in s.
pub fn some_at(l: &[State], at: usize, s: State) -> bool
    requires { at + 1 < length l.now }
    ensures { result ≡ some_at l.now at s }
{
    masks_at(l, at).some(s)
}

// Whether every literal of the two masks at place `at` is true in s.
pub fn all_at(l: &[State], at: usize, s: State) -> bool
    requires { at + 1 < length l.now }
    ensures { result ≡ all_at l.now at s }
{
    masks_at(l, at).all(s)
}

// Whether each number below n passes a test. `all` over a range was tried, and is slower.
pub fn each_below<F: Fn(usize) -> bool>(n: usize, test: F) -> bool
    requires { (i : ℕ) → i < n → F.pre test i }
    ensures yes { result ≡ true → (i : ℕ) → i < n → F.post test i true }
    ensures no { result ≡ false → (i : ℕ) × (i < n) × F.post test i false }
{
    for i in 0..n {
        if !test(i) {
            return false;
        }
    }
    true
}

impl<'a> Book<'a> {
    // Whether every limit holds in s.
    pub fn limits_ok(&self, s: State) -> bool
        ensures { result ≡ limits_ok self.now s }
    {
        each_below(self.limits(), |i| self.limit(i).holds(s))
    }

    // Whether s is lawful: below 2^n, and every limit holds in it.
    pub fn lawful(&self, s: State) -> bool
        ensures { result ≡ book_lawful self.now s }
    {
        s >> self.letters() == 0 && self.limits_ok(s)
    }

    // Whether every first rule is true in s.
    pub fn firsts_ok(&self, s: State) -> bool
        ensures { result ≡ firsts_ok self.now s }
    {
        each_below(self.firsts(), |i| some_at(self.numbers, FIRSTS.at(i), s))
    }

    // Whether s is a first state.
    pub fn first_state(&self, s: State) -> bool
        ensures { result ≡ book_first self.now s }
    {
        self.lawful(s) && self.firsts_ok(s)
    }

    // Whether step rule i allows the step from s to t.
    fn step_ok(&self, s: State, t: State, i: usize) -> bool
        requires { i < steps_of self.now }
        ensures { result ≡ step_ok self.now s t i }
    {
        !self.step_asks(i, s) || self.step_allows(i, t)
    }

    // Whether every step rule allows the step from s to t.
    pub fn steps_ok(&self, s: State, t: State) -> bool
        ensures { result ≡ steps_ok self.now s t }
    {
        each_below(self.steps(), |i| self.step_ok(s, t, i))
    }

    // Whether s moves to t.
    pub fn moves(&self, s: State, t: State) -> bool
        ensures { result ≡ book_moves self.now s t }
    {
        self.lawful(s) && self.lawful(t) && self.steps_ok(s, t)
    }

    // Whether promise k, counted from 0, is kept in s; false past the last promise.
    pub fn kept(&self, k: usize, s: State) -> bool
        ensures { result ≡ book_kept self.now k s }
    {
        k < self.promises() && some_at(self.numbers, PROMISES.at(k), s)
    }

    // Whether step rule i, counted from 0, asks something after s: its left side is true there.
    pub fn step_asks(&self, i: usize, s: State) -> bool
        requires { i < steps_of self.now }
        ensures { result ≡ all_at self.now (step_at i) s }
    {
        all_at(self.numbers, STEPS.at(i), s)
    }

    // Whether t gives what step rule i asks for: its right side is true there.
    pub fn step_allows(&self, i: usize, t: State) -> bool
        requires { i < steps_of self.now }
        ensures { result ≡ some_at self.now (right_at i) t }
    {
        some_at(self.numbers, right_at(i), t)
    }
}
