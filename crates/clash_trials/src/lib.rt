// Trials of a sheet with a choice of its step rules (document 02, order 5): each is judged with no room for a run. One choice is tried, or
// a choice with each of its rules left out by itself, or rules are dropped from the last to the first.
#![tactic(auto)]

ghost use Rattle.std.specs.Prelude.{◌≡◌, ◌≤◌, ◌<◌, length, take, is_ok};
ghost use Rattle.std.proofs.Math.Option.{none};
ghost use Rattle.meaning.specs.Sheet.{most_bytes_of_a_sheet, first_fault};
ghost use Rattle.clash_choice.specs.Proposals.{most_rules, left_out_of};
ghost use Rattle.clash_trials.specs.Trials.{lent_three};
ghost use Rattle.answers.specs.Answers.{too_many_states, short_run, cannot_be_kept};
ghost use Rattle.clash_trials.specs.Parts.{answer_for, BytesJudged, Trial, EachLeftOut, Drops};

use answers::{SHORT_RUN, TOO_MANY_STATES};
use clash_choice::RULES;
use ground::State;
use reader::header::MOST_BYTES;

// What a trial finds where there is room for the states: the sheet can be kept, or it cannot. A trial lends no room for a run, so the judge
// answers a sheet that can be kept by SHORT_RUN.
#[derive(Clone, Copy, PartialEq, Eq)]
pub enum Finding {
    CanBeKept,
    CannotBeKept,
}

// A trial that had no room for the states finds nothing.
#[derive(Clone, Copy, PartialEq, Eq)]
pub struct NoRoom;

// What one of the judge's three answers stands for. It asks that the answer is one of them, as no `TryFrom` can.
fn found_by(answer: u32) -> Result<Finding, NoRoom>
    requires { (answer ≡ too_many_states → ⊥) → (answer ≡ short_run → ⊥) → answer ≡ cannot_be_kept }
    ensures { answer_for result ≡ answer }
{
    match answer {
        TOO_MANY_STATES => Err(NoRoom),
        SHORT_RUN => Ok(Finding::CanBeKept),
        _ => Ok(Finding::CannotBeKept),
    }
}

// What the judge answers for the first `n` bytes of a buffer, with no room for a run.
fn judge_front(
    buffer: &[u8; MOST_BYTES],
    n: usize,
    table: &mut [State],
    words: &mut [u32],
    scratch: &mut [State],
) -> u32
    requires { n ≤ most_bytes_of_a_sheet }
    ensures { BytesJudged (take n buffer.now)
        (lent_three table.old words.old scratch.old) result
        (lent_three table.new words.new scratch.new) }
{
    judge::judge(&buffer[..n], table, words, scratch, &mut []).answer
}

// What the judge finds for the sheet with the chosen rules and no room for a run.
pub fn trial(
    sheet: &[u8],
    marks: &[u8; RULES],
    table: &mut [State],
    words: &mut [u32],
    scratch: &mut [State],
) -> Result<Finding, NoRoom>
    requires { first_fault sheet.now ≡ none }
    ensures { Trial sheet.now (lent_three table.old words.old scratch.old)
        marks.now (answer_for result) (lent_three table.new words.new scratch.new) }
{
    let mut buffer = [0u8; MOST_BYTES];
    let n = clash_choice::write_chosen(sheet, marks, &mut buffer);
    let answer = judge_front(&buffer, n, table, words, scratch);
    found_by(answer)
}

// What the judge finds for the choice with rule `i` + 1 left out. The marks are as they were.
fn left_out(
    sheet: &[u8],
    marks: &mut [u8; RULES],
    i: usize,
    table: &mut [State],
    words: &mut [u32],
    scratch: &mut [State],
) -> Result<Finding, NoRoom>
    requires { (first_fault sheet.now ≡ none) × (i < most_rules) }
    ensures { Trial sheet.now (lent_three table.old words.old scratch.old)
        (left_out_of i marks.old) (answer_for result) (lent_three table.new words.new scratch.new)
        × (marks.new ≡ marks.old) }
{
    let mark = marks[i];
    marks[i] = 0;
    let found = trial(sheet, marks, table, words, scratch);
    marks[i] = mark;
    found
}

// Tries the choice with each of its rules left out by itself: no room if there is none for one of these sheets; or else cannot be kept if
// one cannot; or else can be kept, as all of them can. The marks are as they were.
pub fn each_left_out(
    sheet: &[u8],
    marks: &mut [u8; RULES],
    table: &mut [State],
    words: &mut [u32],
    scratch: &mut [State],
) -> Result<Finding, NoRoom>
    requires { (first_fault sheet.now ≡ none) × (length marks.old ≡ most_rules) }
    ensures { EachLeftOut sheet.now (lent_three table.old words.old scratch.old)
        marks.old (answer_for result) marks.new (lent_three table.new words.new scratch.new) }
{
    let mut worst = Finding::CanBeKept;
    for i in 0..RULES {
        if marks[i] == 0 {
            continue;
        }
        let less = left_out(sheet, marks, i, table, words, scratch)?;
        match less {
            Finding::CanBeKept => {}
            Finding::CannotBeKept => worst = Finding::CannotBeKept,
        }
    }
    Ok(worst)
}

// Drops rules from the last of `count` to the first wherever the sheet still cannot be kept, if every sheet that it tries has room.
pub fn drop_rules(
    sheet: &[u8],
    marks: &mut [u8; RULES],
    count: usize,
    table: &mut [State],
    words: &mut [u32],
    scratch: &mut [State],
) -> Result<(), NoRoom>
    requires { (first_fault sheet.now ≡ none) × (count ≤ most_rules) }
    ensures { Drops sheet.now (lent_three table.old words.old scratch.old)
        count marks.old (is_ok result) marks.new (lent_three table.new words.new scratch.new) }
{
    for i in (0..count).rev() {
        let without = left_out(sheet, marks, i, table, words, scratch)?;
        match without {
            Finding::CanBeKept => {}
            Finding::CannotBeKept => marks[i] = 0,
        }
    }
    Ok(())
}
