// What distances to a promise are, and where both ways of finding them start: struck places are gone, the goal's are at 0, all others are
// not reached yet, and the places with one value can be listed.
#![tactic(auto)]

ghost use Rattle.std.specs.Prelude.{◌≡◌, ◌≤◌, length};
ghost use Rattle.meaning.specs.Promises.{most_states};
ghost use Rattle.distances.specs.Values.{Measurable, Begun, Opening, LinedUp, kept_in};

use ground::State;
use rules::Book;

// No path of unstruck states leads to the promise; or a place is struck, and looked at no more. Every distance is less. Both are numbers of
// the slice that has the distances: the memory is fixed, and has no room beside them.
pub const FAR: u16 = 65535;

pub const GONE: u16 = 65534;

// What a place begins with: struck, at the goal, or not reached yet.
fn start(book: &Book, k: usize, s: State, word: u32) -> u16
    ensures { Begun (kept_in book.now k s) word result }
{
    if word != 0 {
        GONE
    } else if book.kept(k, s) {
        0
    } else {
        FAR
    }
}

// Puts the goal's states at 0.
pub fn begin(book: &Book, k: usize, table: &[State], words: &[u32], r: usize, near: &mut [u16])
    requires { Measurable book.now k table.now words.now r × (length near.old ≡ r) }
    ensures { Opening book.now k table.now words.now r near.new }
{
    for (i, value) in near.iter_mut().enumerate() {
        *value = start(book, k, table[i], words[i]);
    }
}

// Puts the places with value v into the list, ascending; how many those are.
pub fn line_up(near: &[u16], r: usize, v: u16, list: &mut [u16]) -> usize
    requires { (r ≤ length near.now) × (r ≤ length list.old) × (r ≤ most_states) }
    ensures { LinedUp v near.now r result list.new × (length list.new ≡ length list.old) }
{
    let mut tail: usize = 0;
    for (i, x) in near[..r].iter().enumerate() {
        if *x == v {
            list[tail] = i as u16;
            tail += 1;
        }
    }
    tail
}
