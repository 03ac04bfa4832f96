// Literals. A literal is a byte that stands for a signed number in two's complement: its sign is the polarity, its size the letter. The
// contracts cite the meaning, so that no caller sees a signed number.
ghost use Rattle.std.specs.Prelude.{◌≡◌};
ghost use Rattle.meaning.specs.Sheet.{names, signed_below, positive, size};

// Whether a literal says that its letter holds.
pub fn is_positive(b: u8) -> bool
    ensures { result ≡ positive b }
{
    b.cast_signed() >= 0
}

// Whether one literal stands strictly before another in a list.
pub fn signed_below(a: u8, b: u8) -> bool
    ensures { result ≡ signed_below a b }
{
    a.cast_signed() < b.cast_signed()
}

// The letter that a literal names; 128 for the byte of -128, which names none.
pub fn letter_of(b: u8) -> u8
    ensures { result ≡ size b }
{
    b.cast_signed().unsigned_abs()
}

// Whether a literal names one of the letters 1 to n.
pub fn names_letter(b: u8, n: u8) -> bool
    ensures { result ≡ names n b }
{
    let letter = letter_of(b);
    1 <= letter && letter <= n
}
