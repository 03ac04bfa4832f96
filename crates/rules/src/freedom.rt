// Whether one state may move wherever another may: every step rule that asks something after the one asks it after the other.
ghost use Rattle.std.specs.Prelude.{◌≡◌, true, ◌<◌};
ghost use Rattle.rules.specs.Book.{steps_of};
ghost use Rattle.rules.specs.Freer.{AsksToo, Freer};

use super::ask::each_below;
use super::book::{Book, State};

impl<'a> Book<'a> {
    // Whether step rule i, if it asks something after u, asks it after s.
    fn asks_too(&self, i: usize, u: State, s: State) -> bool
        requires { i < steps_of self.now }
        ensures { result ≡ true → AsksToo self.now u s i }
    {
        !self.step_asks(i, u) || self.step_asks(i, s)
    }

    // True only if every step rule that asks something after u asks it after s, too, so that u may move wherever s may.
    pub fn freer(&self, u: State, s: State) -> bool
        ensures { result ≡ true → Freer self.now u s }
    {
        each_below(self.steps(), |i| self.asks_too(i, u, s))
    }
}
