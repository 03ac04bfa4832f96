// What the judge's answers have in common: the five numbers, the room for states, and what is left in the slices that it was lent, zeros
// where nothing is handed over. The promise of each answer over the system of a book is `JudgedBy` of specs/Judging.antt.
#![tactic(auto)]

ghost use Rattle.std.specs.Prelude.{◌≡◌, ◌≤◌, ◌/◌, min, length};
ghost use Rattle.meaning.specs.Promises.{most_states};
ghost use Rattle.table_order.specs.Placing.{Orderable};
ghost use Rattle.judge_answer.specs.Judging.{refused, LeftOver, StrikesWritten};

use ground::{MOST_STATES, State};

// What the judge returns: document 01's answer, count, a and b, and the place of a bad sheet's fault. The answer is a number and no enum,
// as `Judged` of the meaning promises it and as C gets it.
#[derive(Clone, Copy)]
pub struct Judgement {
    pub answer: u32,
    pub count: u32,
    pub a: u32,
    pub b: u32,
    pub place: u32,
}

// An answer that counts nothing and hands over no run.
pub fn refusal(answer: u32, b: u32, place: u32) -> Judgement
    ensures { result ≡ refused answer b place }
{
    Judgement {
        answer,
        count: 0,
        a: 0,
        b,
        place,
    }
}

// Leaves the first t places of the table and the first w of the words; zeros everywhere else.
pub fn leave(table: &mut [State], words: &mut [u32], scratch: &mut [State], t: usize, w: usize)
    requires { (t ≤ length table.old) × (w ≤ length words.old) }
    ensures { LeftOver t w table.old words.old scratch.old table.new words.new
        scratch.new }
{
    table[t..].fill(0);
    words[w..].fill(0);
    scratch.fill(0);
}

// C: the least of the table's length, the words' length, half the scratch length rounded down, and 16,384.
pub fn room(table: usize, words: usize, scratch: usize) -> usize
    ensures { result ≡ min (min table words) (min (scratch / 2) most_states) }
{
    table.min(words).min((scratch / 2).min(MOST_STATES))
}

// Leaves the strike list of r struck states: in order, then zeros.
pub fn write_strikes(table: &mut [State], words: &mut [u32], scratch: &mut [State], r: usize)
    requires { Orderable table.old words.old scratch.old r }
    ensures { StrikesWritten table.old words.old scratch.old r
        table.new words.new scratch.new }
{
    table_order::order(table, words, scratch, r);
    leave(table, words, scratch, r, r);
}
