// A part of a paper, its states or its words, is handed to the checkers as numbers, or as bytes, big-endian, or as bytes and then numbers.
// The checkers are written once, for any part. Which type and width states and words have is known here alone.
#![tactic(auto)]

ghost use Rattle.std.specs.Prelude.{◌≡◌, List, ℕ, ◌<◌, length, get_or};
ghost use Rattle.ground.specs.Says.{Says};
ghost use Rattle.papers.specs.Paper.{AreWhole, whole_in, in_bytes, mixed};

pub mod answer;

pub use ground::State;

// How many bytes a number takes.
pub const NUMBER_BYTES: usize = 4;

// How many bytes a state takes, and a word: `state_bytes` and `word_bytes` of the meaning.
pub const STATE_BYTES: usize = NUMBER_BYTES;

pub const WORD_BYTES: usize = NUMBER_BYTES;

// As what a part's numbers are read: a `State`, or a word's `u32`. Both are one type today.
pub trait Number {
    // The number that it is.
    ghost value: { Self → ℕ };
}

impl Number for u32 {
    ghost value = { λ n. n };
}

// A part of a paper: so many numbers of the type N, each at its place.
pub trait Part<N: Number>: Copy {
    // The numbers that it stands for.
    ghost items: { Self → List ℕ };

    // That nothing is left over.
    ghost whole: { Self → Type 0 };

    // Whether nothing is left over.
    fn is_whole(self) -> bool
        ensures { Says (whole self) result };

    // How many numbers it has.
    fn len(self) -> usize
        ensures { result ≡ length (items self) };

    // Its number at place i.
    fn at(self, i: usize) -> N
        requires { i < length (items self) }
        ensures { N.value result ≡ get_or (items self) i 0 };
}

// Numbers as they are. Here and below what is a part of states is one of words too, since a `State` is a `u32`: a wider state has a part of
// its own beside the words', and no checker changes.
impl Part<State> for &[State] {
    ghost items = { λ s. s.now };

    ghost whole = { λ s. AreWhole s.now };

    fn is_whole(self) -> bool {
        true
    }

    fn len(self) -> usize {
        self.len()
    }

    fn at(self, i: usize) -> State {
        self[i]
    }
}

// Bytes, the highest of a number first.
impl Part<State> for &[u8] {
    ghost items = { λ s. in_bytes s.now };

    ghost whole = { λ s. whole_in s.now };

    fn is_whole(self) -> bool {
        self.len() % STATE_BYTES == 0
    }

    fn len(self) -> usize {
        self.len() / STATE_BYTES
    }

    fn at(self, i: usize) -> State {
        let at = STATE_BYTES * i;
        u32::from_be_bytes([self[at], self[at + 1], self[at + 2], self[at + 3]])
    }
}

// Numbers of which the first stand in bytes: those of the bytes, and then the numbers.
#[derive(Clone, Copy)]
pub struct Mixed<'a, N> {
    pub bytes: &'a [u8],
    pub numbers: &'a [N],
}

impl Part<State> for Mixed<'_, State> {
    ghost items = { λ s. mixed s.bytes.now s.numbers.now };

    ghost whole = { λ s. whole_in s.bytes.now };

    fn is_whole(self) -> bool {
        Part::<State>::is_whole(self.bytes)
    }

    fn len(self) -> usize {
        Part::<State>::len(self.bytes) + self.numbers.len()
    }

    fn at(self, i: usize) -> State {
        let before = Part::<State>::len(self.bytes);
        if i < before {
            self.bytes.at(i)
        } else {
            self.numbers[i - before]
        }
    }
}
