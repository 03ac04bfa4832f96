// The class's call for C, as a static library: it exports the function of crate class that C calls, with the same promise. A slice passes
// as a pointer and a length. include/naxxurbi.h declares it.
#![tactic(auto)]

ghost use Rattle.class_ends.specs.Class.{ClassJudged};
ghost use Rattle.class.specs.Desks.{desk_of};

use ground::State;

// Judges up to 32 joined sheets in turn with the same slices; four numbers of each go into `numbers`.
#[unsafe(no_mangle)]
pub extern "C" fn naxxurbi_judge_class(
    sheets: &[u8],
    ends: &[u32],
    table: &mut [State],
    words: &mut [u32],
    scratch: &mut [State],
    run: &mut [State],
    numbers: &mut [u32],
) -> u32
    ensures { ClassJudged sheets.now ends.now
        (desk_of table.old words.old scratch.old run.old numbers.old)
        result
        (desk_of table.new words.new scratch.new run.new numbers.new) }
{
    class::naxxurbi_judge_class(sheets, ends, table, words, scratch, run, numbers)
}
