// A piece of bytes, written into a lent slice from a place on. What the slice then begins with is in proofs/Writing.antt.
ghost use Rattle.std.specs.Prelude.{◌≡◌};
ghost use Rattle.std.proofs.lemmas.List.Edits.{sets};

// Writes a piece into a slice from a place on. What goes past the end is not stored. A loop, since `copy_from_slice` calls memmove, and the
// archives call memset and memcpy alone.
pub fn write(slice: &mut [u8], at: usize, piece: &[u8])
    ensures { slice.new ≡ sets slice.old at piece.now }
{
    let mut i = 0;
    let mut to = at;
    while i < piece.len() {
        if slice.len() <= to {
            return;
        }
        slice[to] = piece[i];
        i += 1;
        to += 1;
    }
}
