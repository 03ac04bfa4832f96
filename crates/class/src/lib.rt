// The whole class in one call: up to 32 sheets, joined, are judged in turn with the same lent slices, and four numbers of each are noted.
// The promise is `ClassJudged` of crates/class_ends/specs/Class.antt; it asks nothing.
#![tactic(auto)]

ghost use Rattle.std.specs.Prelude.{◌≤◌, ◌+◌, length};
ghost use Rattle.class_ends.specs.Class.{OneJudged, InTurn, ClassJudged};
ghost use Rattle.class_ends.specs.Ends.{Fair};
ghost use Rattle.class.specs.Desks.{desk_of};

use answers::{CLASS_REFUSED, DONE};
pub use class_ends::{EACH, SHEETS};
use class_ends::{fair, note};
use ground::State;

// Judges one sheet and notes its numbers from a place on.
fn judge_one(
    sheet: &[u8],
    table: &mut [State],
    words: &mut [u32],
    scratch: &mut [State],
    run: &mut [State],
    numbers: &mut [u32],
    at: usize,
)
    requires { at + 4 ≤ length numbers.old }
    ensures { OneJudged sheet.now at
        (desk_of table.old words.old scratch.old run.old numbers.old)
        (desk_of table.new words.new scratch.new run.new numbers.new) }
{
    let r = judge::judge(sheet, table, words, scratch, run);
    note(numbers, at, r.answer, r.count, r.a, r.b);
}

// Judges all sheets in turn.
fn judge_all(
    sheets: &[u8],
    ends: &[u32],
    table: &mut [State],
    words: &mut [u32],
    scratch: &mut [State],
    run: &mut [State],
    numbers: &mut [u32],
)
    requires { Fair (length sheets.now) ends.now (length numbers.old) }
    ensures { InTurn sheets.now ends.now
        (desk_of table.old words.old scratch.old run.old numbers.old)
        (length ends.now)
        (desk_of table.new words.new scratch.new run.new numbers.new) }
{
    let mut start: usize = 0;
    for (i, end) in ends.iter().enumerate() {
        let end = *end as usize;
        let at = i * EACH;
        judge_one(&sheets[start..end], table, words, scratch, run, numbers, at);
        start = end;
    }
}

// Judges up to 32 sheets, joined in `sheets`; sheet i ends where the i-th end says. The answer is 16, and nothing is changed, where the
// ends fall, pass the input or leave some of it over, where the sheets are more than 32, or where `numbers` has no four places a sheet.
// Otherwise it is 0, and `numbers` has answer, count, a and b of each sheet, in turn. They and the four slices are as if the judge had been
// called for each sheet in turn with these slices.
pub fn judge_class(
    sheets: &[u8],
    ends: &[u32],
    table: &mut [State],
    words: &mut [u32],
    scratch: &mut [State],
    run: &mut [State],
    numbers: &mut [u32],
) -> u32
    ensures { ClassJudged sheets.now ends.now
        (desk_of table.old words.old scratch.old run.old numbers.old)
        result
        (desk_of table.new words.new scratch.new run.new numbers.new) }
{
    if fair(sheets.len(), ends, numbers.len()) {
        judge_all(sheets, ends, table, words, scratch, run, numbers);
        return DONE;
    }
    CLASS_REFUSED
}

// The same for callers in C, to whom crate class_c hands it: the C interface, so it stands beside `judge_class`.
pub fn naxxurbi_judge_class(
    sheets: &[u8],
    ends: &[u32],
    table: &mut [State],
    words: &mut [u32],
    scratch: &mut [State],
    run: &mut [State],
    numbers: &mut [u32],
) -> u32
    ensures { ClassJudged sheets.now ends.now
        (desk_of table.old words.old scratch.old run.old numbers.old)
        result
        (desk_of table.new words.new scratch.new run.new numbers.new) }
{
    judge_class(sheets, ends, table, words, scratch, run, numbers)
}
