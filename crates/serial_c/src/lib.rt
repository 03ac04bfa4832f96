// The serial lead's two calls for C, as a static library: one export for each function of crate serial that C calls, with the same promise.
// A `&[u8]` passes as a pointer and a length. include/naxxurbi.h declares them.
#![tactic(auto)]

ghost use Rattle.serial.specs.Serial.{TakesState, ClosesState};

use reader::header::MOST_BYTES;

// Takes a piece: `state` is the count and the mark, 0 and 0 at first.
#[unsafe(no_mangle)]
pub extern "C" fn naxxurbi_serial_take(
    state: &mut [u32; 2],
    sheet: &mut [u8; MOST_BYTES],
    piece: &[u8],
) -> u32
    ensures { TakesState state.old sheet.old piece.now result state.new sheet.new }
{
    serial::naxxurbi_serial_take(state, sheet, piece)
}

// Closes the lead: answer and place go into `out`, in this order, on every answer.
#[unsafe(no_mangle)]
pub extern "C" fn naxxurbi_serial_close(
    state: &mut [u32; 2],
    sheet: &[u8; MOST_BYTES],
    out: &mut [u32; 2],
)
    ensures { ClosesState state.old sheet.now out.new state.new }
{
    serial::naxxurbi_serial_close(state, sheet, out);
}
