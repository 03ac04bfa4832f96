// The check of a proposal for a good sheet: the numbers are tested, the choice is tried whole and with each rule left out, and the slices
// are cleared.
ghost use Rattle.std.specs.Prelude.{◌≡◌, length};
ghost use Rattle.std.proofs.Math.Option.{none};
ghost use Rattle.meaning.specs.Sheet.{first_fault};
ghost use Rattle.clash_choice.specs.Proposals.{most_rules};
ghost use Rattle.clash_trials.specs.Trials.{lent_three};
ghost use Rattle.clash_meaning.specs.Clash.{ClashChecked};
ghost use Rattle.clash.specs.Parts.{number_of, Weighs};

use super::slices::{Refusal, clear};
use answers::{DONE, NOT_ACCEPTED};
use clash_choice::RULES;
use clash_trials::Finding;
use ground::State;
use reader::header::STEPS_AT;

// What the check says of a choice. A trial without room comes first, wherever it is met.
fn weigh(
    sheet: &[u8],
    marks: &mut [u8; RULES],
    table: &mut [State],
    words: &mut [u32],
    scratch: &mut [State],
) -> Result<(), Refusal>
    requires { (first_fault sheet.now ≡ none) × (length marks.old ≡ most_rules) }
    ensures { Weighs sheet.now (lent_three table.old words.old scratch.old)
        marks.old (number_of result) (lent_three table.new words.new scratch.new) }
{
    let together = clash_trials::trial(sheet, marks, table, words, scratch)?;
    let less = clash_trials::each_left_out(sheet, marks, table, words, scratch)?;
    match (together, less) {
        (Finding::CannotBeKept, Finding::CanBeKept) => Ok(()),
        _ => Err(Refusal::NotAccepted),
    }
}

// The check for a good sheet.
pub fn check_good(
    sheet: &[u8],
    rules: &[u32],
    table: &mut [State],
    words: &mut [u32],
    scratch: &mut [State],
) -> u32
    requires { first_fault sheet.now ≡ none }
    ensures { ClashChecked sheet.now rules.now
        (lent_three table.old words.old scratch.old) result 0
        (lent_three table.new words.new scratch.new) }
{
    let count = sheet[STEPS_AT] as u32;
    if !clash_choice::proposals::is_proposal(rules, count) {
        return NOT_ACCEPTED;
    }
    let mut marks = clash_choice::proposals::mark(rules);
    let weighed = weigh(sheet, &mut marks, table, words, scratch);
    clear(table, words, scratch);
    match weighed {
        Ok(()) => DONE,
        Err(refusal) => u32::from(refusal),
    }
}
