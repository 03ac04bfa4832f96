// The judge's call for C, as a static library: it exports the function of crate judge that C calls, with the same promise. A slice passes
// as a pointer and a length. include/naxxurbi.h declares it.
#![tactic(auto)]

ghost use Rattle.meaning.specs.Promises.{JudgedOut};
ghost use Rattle.judge_answer.specs.Judging.{lent_of};

use judge::State;

// Judges a sheet: answer, count, a, b and place go into `out`, in this order, whatever the answer.
#[unsafe(no_mangle)]
pub extern "C" fn naxxurbi_judge(
    sheet: &[u8],
    table: &mut [State],
    words: &mut [u32],
    scratch: &mut [State],
    run: &mut [State],
    out: &mut [u32; 5],
)
    ensures { JudgedOut sheet.now
        (lent_of table.old words.old scratch.old run.old)
        out.new
        (lent_of table.new words.new scratch.new run.new) }
{
    judge::naxxurbi_judge(sheet, table, words, scratch, run, out);
}
