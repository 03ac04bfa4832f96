// What the check of a proposal and the planner share: why they refuse, and the clearing of the slices. What their trials come to is in
// proofs/Answers.antt.
ghost use Rattle.std.specs.Prelude.{◌≡◌};
ghost use Rattle.meaning.specs.Promises.{cleared};
ghost use Rattle.clash_trials.specs.Trials.{lent_three};
ghost use Rattle.clash.specs.Parts.{refusal_number};
ghost use Rattle.clash.specs.declared.slices.Refusal.TheVariants.{WithoutRoom};

use answers::{NOT_ACCEPTED, SHORT_RUN, TRIAL_WITHOUT_ROOM};
use clash_trials::NoRoom;
use ground::State;

// Why there is no answer 0 for a good sheet: a trial had no room, the whole sheet can be kept, or a proposal is not one that fights.
#[derive(Clone, Copy, PartialEq, Eq)]
pub enum Refusal {
    WithoutRoom,
    CanBeKept,
    NotAccepted,
}

impl From<NoRoom> for Refusal {
    ghost from_gives = { λ _ r. r ≡ WithoutRoom };

    fn from(_none: NoRoom) -> Refusal {
        Refusal::WithoutRoom
    }
}

impl From<Refusal> for u32 {
    ghost from_gives = { λ refusal r. r ≡ refusal_number refusal };

    fn from(refusal: Refusal) -> u32 {
        match refusal {
            Refusal::WithoutRoom => TRIAL_WITHOUT_ROOM,
            Refusal::CanBeKept => SHORT_RUN,
            Refusal::NotAccepted => NOT_ACCEPTED,
        }
    }
}

// Zeros in all three slices.
pub fn clear(table: &mut [State], words: &mut [u32], scratch: &mut [State])
    ensures { lent_three table.new words.new scratch.new
        ≡ cleared (lent_three table.old words.old scratch.old) }
{
    table.fill(0);
    words.fill(0);
    scratch.fill(0);
}
