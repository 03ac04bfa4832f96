// Whether the states of a paper are all different, found out window by window with a mark for each number, in a small stack.
#![tactic(auto)]

ghost use Rattle.std.specs.Prelude.{◌≡◌, true, ◌<◌};
ghost use Rattle.ground.specs.States.{all_states};
ghost use Rattle.strikes_apart.specs.Apart.{Different};
ghost use Rattle.strikes_apart.specs.Windows.{AllSmall, Window};

use ground::ALL_STATES;
use ground::marks::{WORD_MARKS, mark, met};
use papers::{Part, State};

pub mod front;

// How many numbers a window has, and the words of marks for them.
const WINDOW: usize = 8192;

const MARKS: usize = WINDOW / WORD_MARKS;

// What a window shows: a state that stands twice; or the least state after the window; or that there is none.
#[derive(Clone, Copy)]
pub enum Looked {
    Twice,
    Next(State),
    Done,
}

// True only if no state stands twice, of states that are numbers of letters. Windows are looked at in turn, from 0 up; windows that hold no
// state are passed over.
pub fn all_different<S: Part<State>>(states: S) -> bool
    requires { AllSmall (S.items states) }
    ensures { result ≡ true → Different (S.items states) }
{
    let mut low: State = 0;
    // no range counts the windows: the next one begins at the least state behind this one
    while low < ALL_STATES {
        match window(states, low) {
            Looked::Twice => {
                return false;
            }
            Looked::Next(next) => {
                low = next;
            }
            Looked::Done => {
                return true;
            }
        }
    }
    false
}

// Looks at the states of the window that begins at low, with a mark for each.
fn window<S: Part<State>>(states: S, low: State) -> Looked
    requires { (low < all_states) × AllSmall (S.items states) }
    ensures { Window (S.items states) low result }
{
    let mut marks = [0u32; MARKS];
    let mut next = ALL_STATES;
    for i in 0..states.len() {
        let s = states.at(i);
        if s < low {
            continue;
        }
        let k = (s - low) as usize;
        if k < WINDOW {
            if met(marks[k / WORD_MARKS], k % WORD_MARKS) {
                return Looked::Twice;
            }
            marks[k / WORD_MARKS] = mark(marks[k / WORD_MARKS], k % WORD_MARKS);
        } else {
            next = next.min(s);
        }
    }
    if next < ALL_STATES {
        Looked::Next(next)
    } else {
        Looked::Done
    }
}
