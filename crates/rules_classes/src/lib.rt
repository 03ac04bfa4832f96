// Classes of states. States after which the same step rules ask something are of one class: they move to the same states, so that one
// listing or count serves them all. A table of places finds an earlier state that is likely of the same class: `likely` in a small one,
// where classes that share a slot forget one another, `found` in a large one, where they hardly ever do. That it is of the same class is
// not promised here: who uses it tests it (`Book::freer`), so a wrong place only costs time.
#![tactic(auto)]

ghost use Rattle.std.specs.Prelude.{◌≡◌, ◌<◌, ◌≤◌, ◌+◌, length};
ghost use Rattle.meaning.specs.Promises.{most_states};

use ground::State;
use rules::Book;

// How many places the judge remembers; and the strike checker, whose stack is small.
pub const MANY: usize = 2048;

pub const FEW: usize = 512;

// How lucky a search is at first, and after each find: a miss halves it. After 62 misses on end only each eighth state is looked for, until
// one is found, so that a sheet whose states are all of different classes pays little for their signatures.
pub const LUCKY: usize = 4611686018427387904;

// Signatures are below this prime number, and 48271 spreads them; their product fits a number of 64 bits.
const SIGNATURES: usize = 2147483647;

const SPREAD: usize = 48271;

// A mark is from 1 to so many: it fits a place of a table, and 0 is none.
const MARKS: usize = 65535;

// How many slots are looked at for one signature.
const LOOKS: usize = 8;

// A number of which step rules ask something after s, and of nothing else: the states of one class have one signature.
fn signature(book: &Book, s: State) -> usize {
    let mut sign = 0;
    for i in 0..book.steps() {
        if book.step_asks(i, s) {
            sign = (sign * SPREAD + i + 1) % SIGNATURES;
        }
    }
    sign
}

// Whether the state at place i is looked for.
fn worth(luck: usize, i: usize) -> bool {
    luck != 0 || i % 8 == 0
}

// The place that was given last for a state which is likely of the class of s, 0 where there was none. From now on it is i. Where it is not
// worth looking, i itself. Since whoever asks tests what is found, there is no word of its own for none.
pub fn likely(book: &Book, s: State, i: usize, luck: usize, places: &mut [u16]) -> usize
    requires { (0 < length places.old) × (length places.old ≤ 65536) }
    ensures { length places.new ≡ length places.old }
{
    if !worth(luck, i) {
        return i;
    }
    let slot = signature(book, s) % places.len();
    let place = places[slot] as usize;
    places[slot] = (i % 65536) as u16;
    place
}

// The slot of a signature in a table with two numbers for each slot, the place given last and a mark: of the slots from `home` on the first
// that has the mark, or none; `home` itself where the first few all have other marks. The two numbers stand side by side in the one slice
// of u16 that is lent: no heap, fixed memory.
fn slot_of(places: &[u16], home: usize, mark: u16) -> usize
    requires { (length places.now ≤ 65536) × (home + home + 1 < length places.now) }
    ensures { result + result + 1 < length places.now }
{
    let slots = places.len() / 2;
    let mut slot = home;
    for _ in 0..LOOKS {
        let met = places[2 * slot + 1];
        if met == mark || met == 0 {
            return slot;
        }
        slot = (slot + 1) % slots;
    }
    home
}

// What stands in a slot before: the place given last if it has the mark, else i.
fn given_last(places: &[u16], slot: usize, mark: u16, i: usize) -> usize
    requires { (length places.now ≤ 65536) × (slot + slot + 1 < length places.now) }
{
    if places[2 * slot + 1] == mark {
        places[2 * slot] as usize
    } else {
        i
    }
}

// The same as `likely`, in a table with two numbers for each slot; i where there was none. Empty slots hold zeros.
pub fn found(book: &Book, s: State, i: usize, luck: usize, places: &mut [u16]) -> usize
    requires { (2 ≤ length places.old) × (length places.old ≤ 65536) }
    ensures { length places.new ≡ length places.old }
{
    if !worth(luck, i) {
        return i;
    }
    let sign = signature(book, s);
    let slots = places.len() / 2;
    let mark = (1 + sign / slots % MARKS) as u16;
    let slot = slot_of(places, sign % slots, mark);
    let place = given_last(places, slot, mark, i);
    places[2 * slot] = (i % 65536) as u16;
    places[2 * slot + 1] = mark;
    place
}

// How many classes the table's first r states are of, likely; more than `most` where that many are met. Every slot is to hold zeros before.
pub fn number(book: &Book, table: &[State], r: usize, most: usize, places: &mut [u16]) -> usize
    requires { (r ≤ length table.now) × (r ≤ most_states) × (2 ≤ length places.old)
        × (length places.old ≤ 65536) }
    ensures { (result ≤ most_states) × (length places.new ≡ length places.old) }
{
    let mut met = 0;
    for (i, s) in table[..r].iter().enumerate() {
        if met > most {
            return met;
        }
        if found(book, *s, i, LUCKY, places) == i {
            met += 1;
        }
    }
    met
}
