// The live step rules of a table: those that ask something after some of its states. The others never forbid a move there, and get no bit.
ghost use Rattle.std.specs.Prelude.{◌≡◌, false, ℕ, ◌<◌, length};
ghost use Rattle.rules.specs.Book.{steps_of, most_rules};
ghost use Rattle.rules.specs.Table.{LawfulTable};
ghost use Rattle.rules_signs.specs.Live.{AsksAfter, Live};

use ground::State;
use rules::Book;

// Whether step rule i asks something after one of the table's first r states.
fn asks_somewhere(book: &Book, table: &[State], r: usize, i: usize) -> bool
    requires { LawfulTable book.now table.now r × (i < steps_of book.now) }
    ensures { result ≡ false → (p : ℕ) → p < r → AsksAfter book.now table.now i p → ⊥ }
{
    for s in &table[..r] {
        if book.step_asks(i, *s) {
            return true;
        }
    }
    false
}

// Lists the live rules; how many there are.
pub fn list_live(book: &Book, table: &[State], r: usize, live: &mut [u16]) -> usize
    requires { LawfulTable book.now table.now r × (length live.old ≡ most_rules) }
    ensures { Live book.now table.now r live.new result }
{
    let mut n = 0;
    for i in 0..book.steps() {
        if asks_somewhere(book, table, r, i) {
            live[n] = i as u16;
            n += 1;
        }
    }
    n
}
