// A state's type, and what its bits are: the most letters, the width, and the numbers that follow from these two. Nobody else names them.
ghost use Rattle.std.specs.Prelude.{◌≡◌, ◌^◌, ◌≤◌};
ghost use Rattle.std.specs.Int.Count.{ones};
ghost use Rattle.meaning.specs.Sheet.{most_letters};

// A state, and a mask: a bit for each letter.
pub type State = u32;

// How many bits a state has: `state_bits`.
pub const STATE_BITS: u32 = State::BITS;

// The most letters that a sheet can have: `most_letters` of the meaning.
pub const MOST_LETTERS: u32 = 24;

// How many states the most letters make, `all_states`: a number past every lawful state.
pub const ALL_STATES: State = 1 << MOST_LETTERS;

// The highest bit, which is above all letters.
pub const ABOVE_LETTERS: State = 1 << (STATE_BITS - 1);

// Every bit: `every_bit`.
pub const EVERY_BIT: State = State::MAX;

// The bit of the letter that has u letters below it; past the highest, the number of all states.
pub fn bit_of(u: u32) -> State
    requires { u ≤ most_letters }
    ensures { result ≡ 2 ^ u }
{
    (1 as State) << u
}

// How many bits of x are set. It is compared with a limit's bounds, so it is of their type.
pub fn ones_in(x: State) -> State
    ensures { result ≡ ones x }
{
    x.count_ones() as State
}
