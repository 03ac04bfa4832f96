// Words of bits: writing them for a state, and comparing them.
ghost use Rattle.std.specs.Prelude.{◌≡◌, true, false, ℕ, ◌+◌, ◌*◌, ◌^◌, ◌≤◌, ◌<◌, slice_index};
ghost use Rattle.std.specs.Int.Bits.{bit_or};
ghost use Rattle.ground.specs.Says.{Says};
ghost use Rattle.rules.specs.Book.{steps_of, asks_toward};
ghost use Rattle.rules.specs.Rows.{KeptBelow};
ghost use Rattle.rules_signs.specs.Words.{word_size, most_words, WordOf, WordsOf, Window, Apart, Within};
ghost use Rattle.rules_signs.specs.Live.{Ruled, sign_test};

use ground::State;
use rules::Book;

// How many bits a word has.
pub const WORD: usize = 64;

// Whether step rule i asks something after s (`ahead`), or is not met by s. The side is a bool, not a closure, since `asks_toward` and
// `sign_test`, which contracts of other crates cite, name it so.
fn asks(book: &Book, ahead: bool, i: usize, s: State) -> bool
    requires { i < steps_of book.now }
    ensures { result ≡ asks_toward ahead book.now s i }
{
    if ahead {
        book.step_asks(i, s)
    } else {
        !book.step_allows(i, s)
    }
}

// The word with bit b set. `ground::marks::mark` is the same for words of 32 bits: one for both would need a trait, and be longer.
fn mark(word: u64, b: usize) -> u64
    requires { b < word_size }
    ensures { result ≡ bit_or word (2 ^ b) }
{
    word | (1u64 << (b as u32))
}

// A bit for each of the 64 rules of the list from place `from` on, as far as there are n: whether it asks something after s, or is not met.
fn word(book: &Book, ahead: bool, s: State, live: &[u16], n: usize, from: usize) -> u64
    requires { Ruled book.now live.now n × (from ≤ word_size * most_words) }
    ensures { WordOf (sign_test ahead book.now live.now s) from n result }
{
    let end = n.min(from + WORD);
    let mut x = 0;
    for c in from..end {
        if asks(book, ahead, live[c] as usize, s) {
            x = mark(x, c - from);
        }
    }
    x
}

// Writes such words for all n rules, as far as w words hold them, from place `at` on; what stands before is as it was.
pub fn write(
    book: &Book,
    ahead: bool,
    s: State,
    live: &[u16],
    n: usize,
    w: usize,
    signs: &mut [u64],
    at: usize,
)
    requires { Ruled book.now live.now n × Window signs.old at w }
    ensures { WordsOf (sign_test ahead book.now live.now s) n w signs.new at
        × KeptBelow at signs.old signs.new }
{
    for k in 0..w {
        signs[at + k] = word(book, ahead, s, live, n, WORD * k);
    }
}

// Whether each of the w words at a passes a test with the one at u.
fn each_passes<F: Fn(u64, u64) -> bool>(
    signs: &[u64],
    a: usize,
    u: usize,
    w: usize,
    test: F,
) -> bool
    requires windows { Window signs.now a w × Window signs.now u w }
    requires callable { F.IsAlwaysCallable test }
    ensures yes { result ≡ true → (k : ℕ) → k < w → F.post test (slice_index signs.now (a + k)) (slice_index signs.now (u + k)) true }
    ensures no { result ≡ false → (k : ℕ) × (k < w) × F.post test (slice_index signs.now (a + k)) (slice_index signs.now (u + k)) false }
{
    for k in 0..w {
        if !test(signs[a + k], signs[u + k]) {
            return false;
        }
    }
    true
}

// Whether the w words at a and those at u have no bit in common.
pub fn apart(signs: &[u64], a: usize, u: usize, w: usize) -> bool
    requires { Window signs.now a w × Window signs.now u w }
    ensures { Says (Apart signs.now a u w) result }
{
    each_passes(signs, a, u, w, |x, y| x & y == 0)
}

// Whether every bit of the w words at a is one of those at u.
pub fn within(signs: &[u64], a: usize, u: usize, w: usize) -> bool
    requires { Window signs.now a w × Window signs.now u w }
    ensures { result ≡ true → Within signs.now a u w }
{
    each_passes(signs, a, u, w, |x, y| x & y == x)
}
