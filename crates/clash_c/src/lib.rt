// The two calls about rules that fight, for C, as a static library: one export for each function of crate clash that C calls, with the same
// promise. A slice passes as a pointer and a length. include/naxxurbi.h declares them.
#![tactic(auto)]

ghost use Rattle.clash_trials.specs.Trials.{lent_three};
ghost use Rattle.clash_meaning.specs.Clash.{ClashCheckedC, PlannedC};

use clash_choice::RULES;
use ground::State;

// The check of a proposal, without the place.
#[unsafe(no_mangle)]
pub extern "C" fn naxxurbi_check_clash(
    sheet: &[u8],
    rules: &[u32],
    table: &mut [State],
    words: &mut [u32],
    scratch: &mut [State],
) -> u32
    ensures { ClashCheckedC sheet.now rules.now
        (lent_three table.old words.old scratch.old) result
        (lent_three table.new words.new scratch.new) }
{
    clash::naxxurbi_check_clash(sheet, rules, table, words, scratch)
}

// The planner, without the place: the marks are written on every answer.
#[unsafe(no_mangle)]
pub extern "C" fn naxxurbi_clash(
    sheet: &[u8],
    table: &mut [State],
    words: &mut [u32],
    scratch: &mut [State],
    marks: &mut [u8; RULES],
) -> u32
    ensures { PlannedC sheet.now (lent_three table.old words.old scratch.old)
        result marks.new (lent_three table.new words.new scratch.new) }
{
    clash::naxxurbi_clash(sheet, table, words, scratch, marks)
}
