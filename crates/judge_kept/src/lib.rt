// The judge for a sheet that can be kept: the sample run is found and, if it fits, handed over (answer 0); if not, its length is told
// (answer 12).
#![tactic(auto)]

ghost use Rattle.std.specs.Prelude.{◌≤◌, length};
ghost use Rattle.meaning.specs.Promises.{most_states};
ghost use Rattle.rules.specs.Book.{book_system};
ghost use Rattle.rules_signs.specs.Signs.{Signed};
ghost use Rattle.rules_signs.specs.Sizes.{tiny_states};
ghost use Rattle.judge_answer.specs.Judging.{lent_of, outcome_of, JudgedBy};
ghost use Rattle.judge_kept.specs.Kept.{Kept, HandedOver};

use answers::{DONE, SHORT_RUN};
use ground::State;
use judge_answer::{Judgement, leave, refusal};
use rules::Book;
use sample::Steps;

// The answer once the run is found: 0, and the table's first k states left, if it fits, else 12.
fn hand_over(
    table: &mut [State],
    words: &mut [u32],
    scratch: &mut [State],
    run: &[State],
    k: usize,
    steps: Steps,
) -> Judgement
    requires { (k ≤ length table.old) × (k ≤ most_states) }
    ensures { HandedOver k steps.a steps.b (length run.now) table.old words.old
        scratch.old
        table.new words.new scratch.new result }
{
    let Steps { a, b } = steps;
    if run.len() < b as usize {
        leave(table, words, scratch, 0, 0);
        return refusal(SHORT_RUN, b, 0);
    }
    leave(table, words, scratch, k, 0);
    Judgement {
        answer: DONE,
        count: k as u32,
        a,
        b,
        place: 0,
    }
}

// For a sheet that can be kept, by k livable states: the sample run if it fits.
pub fn judge_kept(
    book: &Book,
    table: &mut [State],
    words: &mut [u32],
    scratch: &mut [State],
    run: &mut [State],
    k: usize,
) -> Judgement
    requires { Kept book.now (lent_of table.old words.old scratch.old run.old) k }
    ensures { JudgedBy (book_system book.now)
        (lent_of table.old words.old scratch.old run.old)
        (outcome_of result (lent_of table.new words.new scratch.new run.new)) }
{
    let steps = sample::steer(book, table, words, run, k);
    hand_over(table, words, scratch, run, k, steps)
}

// The same for very few livable states, by their signs. (One function of both, with the way of steering as a closure, would be no plainer:
// each has two lines.)
pub fn judge_kept_signed(
    book: &Book,
    table: &mut [State],
    words: &mut [u32],
    scratch: &mut [State],
    run: &mut [State],
    k: usize,
    signs: &[u64],
) -> Judgement
    requires { Kept book.now (lent_of table.old words.old scratch.old run.old) k × Signed book.now table.old k signs.now
        × (k ≤ tiny_states) }
    ensures { JudgedBy (book_system book.now)
        (lent_of table.old words.old scratch.old run.old)
        (outcome_of result (lent_of table.new words.new scratch.new run.new)) }
{
    let steps = sample::steer_signed(book, table, words, run, k, signs);
    hand_over(table, words, scratch, run, k, steps)
}
