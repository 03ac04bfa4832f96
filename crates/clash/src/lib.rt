// Which rules fight (document 02, order 5): a check that anyone's proposal may be put to, and a planner of our own. Both ask the judge
// about sheets with a choice of the step rules, with no room for a run. The promises are `ClashChecked` and `Planned` of
// crates/clash_meaning/specs/Clash.antt; they ask nothing of their callers.
#![tactic(auto)]

ghost use Rattle.clash_trials.specs.Trials.{lent_three};
ghost use Rattle.clash_meaning.specs.Clash.{ClashChecked, Planned, ClashCheckedC, PlannedC};

use checker::check_good;
use clash_choice::RULES;
use ground::State;
use papers::answer::Verdict;
pub use planner::Plan;
use planner::plan_good;

pub mod checker;
pub mod planner;
pub mod slices;

// Checks a proposal: do these step rules fight? The answer is 0 if the sheet with these rules alone (and its limits, first rules and
// promises) cannot be kept, and can be kept as soon as any single one of them is left out; 17 if one of these sheets has more reachable
// states than there is room for; 14 for all else, also for numbers that do not rise or are not in the sheet; 1 to 10 for a bad sheet, and
// the place is its byte. A bad sheet and bad numbers change nothing; after every other answer all that is lent is zero.
pub fn check_clash(
    sheet: &[u8],
    rules: &[u32],
    table: &mut [State],
    words: &mut [u32],
    scratch: &mut [State],
) -> Verdict
    ensures { ClashChecked sheet.now rules.now
        (lent_three table.old words.old scratch.old) result.answer result.place
        (lent_three table.new words.new scratch.new) }
{
    match reader::read_in_numbers(sheet) {
        Ok(()) => {
            let answer = check_good(sheet, rules, table, words, scratch);
            Verdict { answer, place: 0 }
        }
        Err(v) => v,
    }
}

// Proposes step rules that fight: drops rules from the last to the first wherever the sheet still cannot be kept, then tries the choice
// with each rule left out. The answer is 0 with the choice in `marks`, which the check accepts; 12 if the whole sheet can be kept; 17 if a
// sheet that it tries has more reachable states than there is room for; 1 to 10 for a bad sheet, and the place is its byte. No mark is set
// but with 0. A bad sheet changes nothing; after every other answer all that is lent is zero.
pub fn clash(sheet: &[u8], table: &mut [State], words: &mut [u32], scratch: &mut [State]) -> Plan
    ensures { Planned sheet.now (lent_three table.old words.old scratch.old)
        result.answer result.place result.marks (lent_three table.new words.new scratch.new) }
{
    match reader::read_in_numbers(sheet) {
        Ok(()) => plan_good(sheet, table, words, scratch),
        Err(v) => Plan {
            answer: v.answer,
            place: v.place,
            marks: [0u8; RULES],
        },
    }
}

// The check for callers in C, to whom crate clash_c hands it, without the place: the C interface, so it stands beside `check_clash`.
pub fn naxxurbi_check_clash(
    sheet: &[u8],
    rules: &[u32],
    table: &mut [State],
    words: &mut [u32],
    scratch: &mut [State],
) -> u32
    ensures { ClashCheckedC sheet.now rules.now
        (lent_three table.old words.old scratch.old) result
        (lent_three table.new words.new scratch.new) }
{
    check_clash(sheet, rules, table, words, scratch).answer
}

// The planner for callers in C, likewise beside `clash`, without the place: the marks are written on every answer.
pub fn naxxurbi_clash(
    sheet: &[u8],
    table: &mut [State],
    words: &mut [u32],
    scratch: &mut [State],
    marks: &mut [u8; RULES],
) -> u32
    ensures { PlannedC sheet.now (lent_three table.old words.old scratch.old)
        result marks.new (lent_three table.new words.new scratch.new) }
{
    let plan = clash(sheet, table, words, scratch);
    let chosen = plan.marks;
    *marks = chosen;
    plan.answer
}
