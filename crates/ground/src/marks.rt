// Marks: a word in which each bit says of one thing that it was met. Asking for a mark, and setting one.
ghost use Rattle.std.specs.Prelude.{◌≡◌, ◌<◌, ◌^◌, eqb};
ghost use Rattle.std.specs.Int.Bits.{bit_or};
ghost use Rattle.ground.specs.Bits.{bit, word_marks};

// How many marks a word holds: `word_marks`.
pub const WORD_MARKS: usize = 32;

// Whether bit k is marked.
pub fn met(word: u32, k: usize) -> bool
    requires { k < word_marks }
    ensures { result ≡ eqb (bit k word) 1 }
{
    (word >> (k as u32)) % 2 == 1
}

// The word with bit k marked.
pub fn mark(word: u32, k: usize) -> u32
    requires { k < word_marks }
    ensures { result ≡ bit_or word (2 ^ k) }
{
    word | (1u32 << (k as u32))
}
