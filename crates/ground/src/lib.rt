// The ground: what several crates use alike. A state's type and bits, the most states that are judged, a sheet's bounds. Beside the code
// stand what a test says, what stands in a list, what zeros leave, bits, and their laws.
#![tactic(auto)]

pub mod marks;
pub mod pieces;
pub mod state;

pub use state::{
    ABOVE_LETTERS, ALL_STATES, EVERY_BIT, MOST_LETTERS, STATE_BITS, State, bit_of, ones_in,
};

// The most states that are judged: `most_states` of the meaning.
pub const MOST_STATES: usize = 16384;

// The most limits, step rules and promises that a sheet can have.
pub const MOST_LIMITS: usize = 32;

pub const MOST_RULES: usize = 255;

pub const MOST_PROMISES: usize = 16;
