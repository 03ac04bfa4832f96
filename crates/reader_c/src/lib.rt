// The reader's two calls for C, as a static library: one export for each function of crate reader that C calls, with the same promise. A
// `&[u8]` passes as a pointer and a length. include/naxxurbi.h declares them.
#![tactic(auto)]

ghost use Rattle.meaning.specs.Promises.{ReadSays, ReadOut};

// 0 for a good sheet, or the number of its first fault.
#[unsafe(no_mangle)]
pub extern "C" fn naxxurbi_read(sheet: &[u8]) -> u32
    ensures { ReadSays sheet.now result }
{
    reader::naxxurbi_read(sheet)
}

// The same with the place: number and place go into `out`, in this order, whatever the sheet. The place of a good sheet is 0.
#[unsafe(no_mangle)]
pub extern "C" fn naxxurbi_read_place(sheet: &[u8], out: &mut [u32; 2])
    ensures { ReadOut sheet.now out.new }
{
    reader::naxxurbi_read_place(sheet, out);
}
