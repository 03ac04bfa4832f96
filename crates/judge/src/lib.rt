// The judge: reads a sheet, compiles it into its book, and answers what `judge_book` finds over that, in the slices that it was lent. Its
// promise is `Judged` of the meaning; it asks nothing.
#![tactic(auto)]

ghost use Rattle.std.specs.Prelude.{◌≡◌};
ghost use Rattle.std.proofs.Math.Option.{none};
ghost use Rattle.meaning.specs.Sheet.{first_fault};
ghost use Rattle.meaning.specs.Promises.{Judged, JudgedOut};
ghost use Rattle.judge_answer.specs.Judging.{lent_of, outcome_of};

pub use ground::State;
pub use judge_answer::Judgement;
use judge_answer::refusal;
use judge_book::judge_book;
use rules::Book;

// For a good sheet.
fn judge_good(
    sheet: &[u8],
    table: &mut [State],
    words: &mut [u32],
    scratch: &mut [State],
    run: &mut [State],
) -> Judgement
    requires { first_fault sheet.now ≡ none }
    ensures { Judged sheet.now
        (lent_of table.old words.old scratch.old run.old)
        (outcome_of result (lent_of table.new words.new scratch.new run.new)) }
{
    let mut numbers = [0 as State; rules::BOOK_SIZE];
    compile::compile(sheet, &mut numbers);
    let book = Book { numbers: &numbers };
    judge_book(&book, table, words, scratch, run)
}

// Judges a sheet: is there an endless run that obeys it? Any bytes and any slices may be handed in. There is room for C states, the least
// of the table's length, the words' length, half the scratch length and 16,384. The answer is 0 (can be kept: the table lists the K livable
// states, run has the sample run of b states, which goes back to place a), 13 (cannot be kept: table and words have the strike list of all
// R states), 11 (R is above C), 12 (the run needs b places), or 1 to 10 (the sheet's first fault, and the place is its byte; nothing lent
// is changed). What each slice then holds is `outcome` of the meaning.
pub fn judge(
    sheet: &[u8],
    table: &mut [State],
    words: &mut [u32],
    scratch: &mut [State],
    run: &mut [State],
) -> Judgement
    ensures { Judged sheet.now
        (lent_of table.old words.old scratch.old run.old)
        (outcome_of result (lent_of table.new words.new scratch.new run.new)) }
{
    match reader::read_in_numbers(sheet) {
        Ok(()) => judge_good(sheet, table, words, scratch, run),
        Err(v) => refusal(v.answer, 0, v.place),
    }
}

// The same for callers in C, to whom crate judge_c hands it: answer, count, a, b and place go into `out`, in this order, whatever the
// answer.
pub fn naxxurbi_judge(
    sheet: &[u8],
    table: &mut [State],
    words: &mut [u32],
    scratch: &mut [State],
    run: &mut [State],
    out: &mut [u32; 5],
)
    ensures { JudgedOut sheet.now
        (lent_of table.old words.old scratch.old run.old)
        out.new
        (lent_of table.new words.new scratch.new run.new) }
{
    let r = judge(sheet, table, words, scratch, run);
    *out = [r.answer, r.count, r.a, r.b, r.place];
}
