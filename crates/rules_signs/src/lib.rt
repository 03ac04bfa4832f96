// Signs: for each place of a table, as bits, the step rules that ask something after its state, and those that its state does not meet. A
// move leads from one place to another exactly if no rule is in both. Rules that ask nothing after any state of the table get no bit. Where
// the lent slice has no room for all the others, bits in common still forbid a move, and else the book is asked.
#![tactic(auto)]

ghost use Rattle.std.specs.Prelude.{◌≡◌, true, ℕ, ◌*◌, ◌<◌, ◌≤◌, length};
ghost use Rattle.ground.specs.Says.{Says};
ghost use Rattle.meaning.specs.Promises.{most_states};
ghost use Rattle.rules.specs.Book.{most_rules};
ghost use Rattle.rules.specs.Rows.{KeptBelow};
ghost use Rattle.rules.specs.Table.{LawfulTable, To};
ghost use Rattle.rules_signs.specs.Words.{word_size, most_words};
ghost use Rattle.rules_signs.specs.Live.{Ruled};
ghost use Rattle.rules_signs.specs.Signs.{Roomed, Signed, RowsTo, head_size, mixed_below, asked_from, unmet_from};

use ground::State;
use rules::Book;

pub mod live;
pub mod words;

// How many numbers stand before the first row.
pub const HEAD: usize = 2;

// Up to so many states need next to no room.
pub const TINY_STATES: usize = 32;

// Up to so many states storing their moves would cost more than it saves: pairs are tested, by signs.
pub const FEW_STATES: usize = 512;

// Up to so many states whose moves are not stored need room of a middle size.
pub const SOME_STATES: usize = 2048;

// How long a row is that has a bit of each of 256 step rules in either half.
const ROW: usize = 8;

// Room for the signs of tables of these sizes: of 256 step rules for each state.
pub const TINY_SIGNS: usize = HEAD + ROW * TINY_STATES;

pub const FEW_SIGNS: usize = HEAD + ROW * FEW_STATES;

pub const SOME_SIGNS: usize = HEAD + ROW * SOME_STATES;

// Room for the signs of any table: at least one word of either kind for each place.
pub const MOST_SIGNS: usize = HEAD + 2 * ground::MOST_STATES;

// How many slots there are for places that were spread from (`slot`); and where no more places wait than this the slots are not asked,
// since the places are soon tested.
pub const SLOTS: usize = 2048;

pub const FEW_WAITING: usize = 32;

// A slot's number is mixed below this prime number; the other spreads it.
const MIXED: usize = 2147483647;

const SPREAD: usize = 1103515245;

// Where place i's row begins, w words to a half: the rules that ask something after its state.
fn asked_at(w: usize, i: usize) -> usize
    requires { (w ≤ most_words) × (i ≤ most_states) }
    ensures { result ≡ asked_from w i }
{
    HEAD + i * (2 * w)
}

// Where its second half begins: the rules that its state does not meet.
fn unmet_at(w: usize, i: usize) -> usize
    requires { (w ≤ most_words) × (i ≤ most_states) }
    ensures { result ≡ unmet_from w i }
{
    asked_at(w, i) + w
}

// How many words a half of a row has: enough for n rules, or as many as there is room for.
fn width(size: usize, r: usize, n: usize) -> usize
    requires { (head_size ≤ size) × (r ≤ most_states) × (n ≤ most_rules) }
    ensures { (result ≤ most_words) × (asked_from result r ≤ size) }
{
    for w in (1..=n.div_ceil(words::WORD)).rev() {
        if asked_at(w, r) <= size {
            return w;
        }
    }
    0
}

// Whether w words have a bit for each of n rules.
fn whole(n: usize, w: usize) -> bool
    requires { w ≤ most_words }
    ensures { result ≡ true → n ≤ word_size * w }
{
    n <= words::WORD * w
}

// Writes the rows of the table's first r places.
fn write_rows(
    book: &Book,
    table: &[State],
    r: usize,
    live: &[u16],
    n: usize,
    w: usize,
    signs: &mut [u64],
)
    requires { Ruled book.now live.now n × (r ≤ length table.now) × (r ≤ most_states) × (w ≤ most_words)
        × (asked_from w r ≤ length signs.old) }
    ensures { RowsTo book.now table.now live.now n w signs.new r
        × KeptBelow head_size signs.old signs.new }
{
    for (i, s) in table[..r].iter().enumerate() {
        words::write(book, true, *s, live, n, w, signs, asked_at(w, i));
        words::write(book, false, *s, live, n, w, signs, unmet_at(w, i));
    }
}

// Writes the signs of the table's first r places, as far as there is room for them.
pub fn fill(book: &Book, table: &[State], r: usize, signs: &mut [u64])
    requires { LawfulTable book.now table.now r × (head_size ≤ length signs.old) }
    ensures { Signed book.now table.now r signs.new
        × (length signs.new ≡ length signs.old) }
{
    let mut list = [0u16; ground::MOST_RULES];
    let n = live::list_live(book, table, r, &mut list);
    let w = width(signs.len(), r, n);
    signs[0] = w as u64;
    signs[1] = u64::from(whole(n, w));
    write_rows(book, table, r, &list, n, w, signs);
}

// Whether a move leads from place i to place j.
pub fn meets(book: &Book, table: &[State], r: usize, signs: &[u64], i: usize, j: usize) -> bool
    requires { Signed book.now table.now r signs.now × (i < r) × (j < r) }
    ensures { Says (To book.now table.now i j) result }
{
    let w = signs[0] as usize;
    let asked = asked_at(w, i);
    let unmet = unmet_at(w, j);
    words::apart(signs, asked, unmet, w) && (signs[1] == 1 || book.moves(table[i], table[j]))
}

// Whether it is sure that whoever moves to place j moves to place k, too.
pub fn stricter(book: &Book, table: &[State], r: usize, signs: &[u64], k: usize, j: usize) -> bool
    requires { Signed book.now table.now r signs.now × (k < r) × (j < r) }
    ensures { result ≡ true → (i : ℕ) → i < r → To book.now table.now i j
        → To book.now table.now i k }
{
    let w = signs[0] as usize;
    signs[1] == 1 && words::within(signs, unmet_at(w, k), unmet_at(w, j), w)
}

// A number mixed with one more word.
fn mixed(mix: usize, word: u64) -> usize
    requires { mix < mixed_below }
    ensures { result < mixed_below }
{
    (mix * SPREAD + word as usize % MIXED) % MIXED
}

// A number below `count` that depends only on the rules that the state at place j does not meet.
pub fn slot(signs: &[u64], r: usize, j: usize, count: usize) -> usize
    requires { Roomed r signs.now × (j < r) × (0 < count) }
    ensures { result < count }
{
    let w = signs[0] as usize;
    let at = unmet_at(w, j);
    let mut mix = 0;
    for word in &signs[at..at + w] {
        mix = mixed(mix, *word);
    }
    mix % count
}
