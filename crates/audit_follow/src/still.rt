// How long a log stands still. A monitor writes a state at every moment, and most of the time nothing has changed since the one before;
// such moves are all alike and are counted at once.
ghost use Rattle.std.specs.Prelude.{◌≡◌, ◌≤◌, ◌<◌, length};
ghost use Rattle.audit_account.specs.Book.{Standing, SameMoves};

use ground::State;

// How many states from a place on are s.
fn standing(states: &[State], from: usize, s: State) -> usize
    requires { from ≤ length states.now }
    ensures { Standing states.now from s result }
{
    for i in from..states.len() {
        if states[i] != s {
            return i - from;
        }
    }
    states.len() - from
}

// How many of the states from place i on come by one and the same move, where `count` states came before, the last of them `last`: as many
// as the log stands still, or one.
pub fn same_moves(states: &[State], i: usize, count: u32, last: State) -> usize
    requires { i < length states.now }
    ensures { SameMoves states.now i count last result }
{
    if count == 0 {
        return 1;
    }
    standing(states, i, last).max(1)
}
