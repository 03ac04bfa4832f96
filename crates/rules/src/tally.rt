// A list of literals against a state: how many are true in it, whether some is, whether all are.
ghost use Rattle.std.specs.Prelude.{◌≡◌};
ghost use Rattle.rules.specs.Book.{count_of, some_of, all_of};

use super::book::State;
use ground::ones_in;

// A list of literals as two masks: the letters that are to hold, and those that are not.
#[derive(Clone, Copy)]
pub struct Literals {
    pub held: State,
    pub unheld: State,
}

impl Literals {
    // How many are true in s: of the letters asked to hold those that do, and of those asked not to hold those that do not.
    pub fn count(self, s: State) -> State
        ensures { result ≡ count_of s self.held self.unheld }
    {
        let holding = ones_in(s & self.held);
        let resting = ones_in(self.unheld & !s);
        holding + resting
    }

    // Whether some literal is true in s.
    pub fn some(self, s: State) -> bool
        ensures { result ≡ some_of s self.held self.unheld }
    {
        s & self.held != 0 || s & self.unheld != self.unheld
    }

    // Whether every literal is true in s.
    pub fn all(self, s: State) -> bool
        ensures { result ≡ all_of s self.held self.unheld }
    {
        s & self.held == self.held && s & self.unheld == 0
    }
}
