// The planner for a good sheet: rules are dropped from the last to the first wherever the sheet still cannot be kept, the choice is tried
// with each rule left out, and the slices are cleared.
ghost use Rattle.std.specs.Prelude.{◌≡◌};
ghost use Rattle.std.proofs.Math.Option.{none};
ghost use Rattle.meaning.specs.Sheet.{first_fault};
ghost use Rattle.clash_choice.specs.Proposals.{first_marks};
ghost use Rattle.clash_trials.specs.Trials.{lent_three};
ghost use Rattle.clash_meaning.specs.Clash.{Planned};
ghost use Rattle.clash.specs.Parts.{number_of, Works};

use super::slices::{Refusal, clear};
use answers::DONE;
use clash_choice::RULES;
use clash_trials::Finding;
use ground::State;
use reader::header::STEPS_AT;

// What the planner returns: an answer, the place of a bad sheet's fault, and a mark for each rule, 1 where it is chosen.
#[derive(Clone, Copy)]
pub struct Plan {
    pub answer: u32,
    pub place: u32,
    pub marks: [u8; RULES],
}

// The plan for a good sheet, in marks that are all 0 before: the choice, if every trial has room and the sheet cannot be kept.
fn work(
    sheet: &[u8],
    marks: &mut [u8; RULES],
    table: &mut [State],
    words: &mut [u32],
    scratch: &mut [State],
) -> Result<(), Refusal>
    requires { (first_fault sheet.now ≡ none) × (marks.old ≡ first_marks 0) }
    ensures { Works sheet.now (lent_three table.old words.old scratch.old)
        (number_of result) marks.new (lent_three table.new words.new scratch.new) }
{
    let count = sheet[STEPS_AT] as usize;
    clash_choice::proposals::mark_first(marks, count);
    let whole = clash_trials::trial(sheet, marks, table, words, scratch)?;
    match whole {
        Finding::CanBeKept => return Err(Refusal::CanBeKept),
        Finding::CannotBeKept => {}
    }
    clash_trials::drop_rules(sheet, marks, count, table, words, scratch)?;
    clash_trials::each_left_out(sheet, marks, table, words, scratch)?;
    Ok(())
}

// The planner for a good sheet: no mark stays set on a refusal.
pub fn plan_good(
    sheet: &[u8],
    table: &mut [State],
    words: &mut [u32],
    scratch: &mut [State],
) -> Plan
    requires { first_fault sheet.now ≡ none }
    ensures { Planned sheet.now (lent_three table.old words.old scratch.old)
        result.answer result.place result.marks (lent_three table.new words.new scratch.new) }
{
    let mut marks = [0u8; RULES];
    let worked = work(sheet, &mut marks, table, words, scratch);
    clear(table, words, scratch);
    match worked {
        Ok(()) => Plan {
            answer: DONE,
            place: 0,
            marks,
        },
        Err(refusal) => Plan {
            answer: u32::from(refusal),
            place: 0,
            marks: [0u8; RULES],
        },
    }
}
