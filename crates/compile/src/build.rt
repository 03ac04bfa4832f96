// The two masks of a list of literals, each literal's byte read through the reader.
ghost use Rattle.std.specs.Prelude.{◌≡◌, true, false, ◌-◌, ◌+◌, ◌^◌, ◌≤◌, ◌<◌, length};
ghost use Rattle.meaning.specs.Sheet.{size, most_letters};
ghost use Rattle.compile.specs.Literals.{mask_of, Ordered};
ghost use Rattle.compile.specs.Compile.{ListWritten};

use reader::literal::{is_positive, letter_of};
use rules::book::{State, put_masks};
use rules::tally::Literals;

// The bit of the letter that a literal names.
fn named_bit(b: u8) -> State
    requires { (1 ≤ size b) × (size b ≤ most_letters) }
    ensures { result ≡ 2 ^ (size b - 1) }
{
    ground::bit_of((letter_of(b) - 1) as u32)
}

// The masks of a list of literals.
fn masks_of(literals: &[u8]) -> Literals
    requires { Ordered most_letters 0 literals.now }
    ensures held { result.held ≡ mask_of true literals.now }
    ensures unheld { result.unheld ≡ mask_of false literals.now }
{
    let mut held = 0;
    let mut unheld = 0;
    for b in literals {
        let bit = named_bit(*b);
        if is_positive(*b) {
            held += bit;
        } else {
            unheld += bit;
        }
    }
    Literals { held, unheld }
}

// Writes the two masks of a list of literals at place `at` of the book.
pub fn put_list(literals: &[u8], book: &mut [State], at: usize)
    requires { Ordered most_letters 0 literals.now × (at + 1 < length book.old) }
    ensures { ListWritten literals.now book.old at book.new }
{
    put_masks(book, at, masks_of(literals));
}
