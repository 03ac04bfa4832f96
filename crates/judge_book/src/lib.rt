// The judge over a sheet's book: lists the reachable states (answer 11 where there is no room for them), strikes those that nobody could
// keep, and hands over the strike list (answer 13, `judge_struck`) or what `judge_kept` finds. Where very few states can be reached `tiny`
// does it.
#![tactic(auto)]

ghost use Rattle.rules.specs.Book.{book_system};
ghost use Rattle.judge_answer.specs.Judging.{lent_of, outcome_of, JudgedBy};
ghost use Rattle.judge_book.specs.Reached.{Reached};

use answers::TOO_MANY_STATES;
use ground::State;
use judge_answer::{Judgement, leave, refusal, room};
use judge_kept::judge_kept;
use judge_struck::judge_struck;
use rules::Book;
use tiny::judge_tiny;

pub mod tiny;

// With the r reachable states listed in the table.
fn judge_reached(
    book: &Book,
    table: &mut [State],
    words: &mut [u32],
    scratch: &mut [State],
    run: &mut [State],
    r: usize,
) -> Judgement
    requires { Reached book.now (lent_of table.old words.old scratch.old run.old) r }
    ensures { JudgedBy (book_system book.now)
        (lent_of table.old words.old scratch.old run.old)
        (outcome_of result (lent_of table.new words.new scratch.new run.new)) }
{
    if r <= rules_signs::TINY_STATES {
        return judge_tiny(book, table, words, scratch, run, r);
    }
    let left = strike::strike(book, table, words, r);
    if left == 0 {
        return judge_struck(table, words, scratch, r);
    }
    let k = table_order::keep(table, words, r);
    judge_kept(book, table, words, scratch, run, k)
}

// For a good sheet, compiled into its book.
pub fn judge_book(
    book: &Book,
    table: &mut [State],
    words: &mut [u32],
    scratch: &mut [State],
    run: &mut [State],
) -> Judgement
    ensures { JudgedBy (book_system book.now)
        (lent_of table.old words.old scratch.old run.old)
        (outcome_of result (lent_of table.new words.new scratch.new run.new)) }
{
    book.shaped();
    let cap = room(table.len(), words.len(), scratch.len());
    let Some(r) = table_explore::explore(book, table, scratch, cap) else {
        leave(table, words, scratch, 0, 0);
        return refusal(TOO_MANY_STATES, 0, 0);
    };
    judge_reached(book, table, words, scratch, run, r)
}
