// The judge over a sheet's book where very few states can be reached: their signs are written once for striking and for the sample run.
ghost use Rattle.std.specs.Prelude.{◌≡◌, ◌≤◌, length};
ghost use Rattle.rules.specs.Book.{book_system};
ghost use Rattle.rules.specs.Table.{LawfulTable};
ghost use Rattle.rules_signs.specs.Signs.{head_size, Signed};
ghost use Rattle.rules_signs.specs.Sizes.{tiny_states};
ghost use Rattle.table_order.specs.Arranged.{InFront};
ghost use Rattle.table_order.specs.Placing.{Keepable};
ghost use Rattle.judge_answer.specs.Judging.{lent_of, outcome_of, JudgedBy};
ghost use Rattle.judge_book.specs.Reached.{Reached};

use ground::State;
use judge_answer::Judgement;
use judge_kept::judge_kept_signed;
use judge_struck::judge_struck;
use rules::Book;

// Once striking left some of the r states: puts those in front, and tells how many they are. Their signs are written anew only where some
// state was struck.
fn keep_signed(
    book: &Book,
    table: &mut [State],
    words: &[u32],
    r: usize,
    left: usize,
    signs: &mut [u64],
) -> usize
    requires { LawfulTable book.now table.old r × Keepable table.old words.now r × Signed book.now table.old r signs.old
        × (head_size ≤ length signs.old) × (left ≡ r → InFront table.old words.now r table.old r) }
    ensures { InFront table.old words.now r table.new result
        × Signed book.now table.new result signs.new
        × (length signs.new ≡ length signs.old) }
{
    if left == r {
        return r;
    }
    let k = table_order::keep(table, words, r);
    rules_signs::fill(book, table, k, signs);
    k
}

// With the very few reachable states listed in the table: by their signs.
fn judge_signed(
    book: &Book,
    table: &mut [State],
    words: &mut [u32],
    scratch: &mut [State],
    run: &mut [State],
    r: usize,
    signs: &mut [u64],
) -> Judgement
    requires { Reached book.now (lent_of table.old words.old scratch.old run.old) r × (r ≤ tiny_states)
        × (head_size ≤ length signs.old) }
    ensures { JudgedBy (book_system book.now)
        (lent_of table.old words.old scratch.old run.old)
        (outcome_of result (lent_of table.new words.new scratch.new run.new)) }
{
    rules_signs::fill(book, table, r, signs);
    let left = strike::strike_signed(book, table, words, r, signs);
    if left == 0 {
        return judge_struck(table, words, scratch, r);
    }
    let k = keep_signed(book, table, words, r, left, signs);
    judge_kept_signed(book, table, words, scratch, run, k, signs)
}

// With room for these signs alone, so that the smallest sheets stay quick.
pub fn judge_tiny(
    book: &Book,
    table: &mut [State],
    words: &mut [u32],
    scratch: &mut [State],
    run: &mut [State],
    r: usize,
) -> Judgement
    requires { Reached book.now (lent_of table.old words.old scratch.old run.old) r × (r ≤ tiny_states) }
    ensures { JudgedBy (book_system book.now)
        (lent_of table.old words.old scratch.old run.old)
        (outcome_of result (lent_of table.new words.new scratch.new run.new)) }
{
    let mut signs = [0u64; rules_signs::TINY_SIGNS];
    judge_signed(book, table, words, scratch, run, r, &mut signs)
}
