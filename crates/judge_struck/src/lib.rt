// The strike list where no state is left (answer 13), for any number of reachable states.
#![tactic(auto)]

ghost use Rattle.std.specs.Prelude.{◌≡◌};
ghost use Rattle.table_order.specs.Placing.{Orderable};
ghost use Rattle.judge_answer.specs.Judging.{StrikesWritten};
ghost use Rattle.judge_struck.specs.Struck.{all_struck};

use answers::CANNOT_BE_KEPT;
use ground::State;
use judge_answer::{Judgement, write_strikes};

// Where no state is left: the strike list of all r, and answer 13.
pub fn judge_struck(
    table: &mut [State],
    words: &mut [u32],
    scratch: &mut [State],
    r: usize,
) -> Judgement
    requires { Orderable table.old words.old scratch.old r }
    ensures { StrikesWritten table.old words.old scratch.old r
        table.new words.new scratch.new × (result ≡ all_struck r) }
{
    write_strikes(table, words, scratch, r);
    Judgement {
        answer: CANNOT_BE_KEPT,
        count: r as u32,
        a: 0,
        b: 0,
        place: 0,
    }
}
