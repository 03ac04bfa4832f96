// Sheets joined in one input: which classes are refused, before any sheet is judged, and how four numbers of a sheet are noted. What the
// whole class promises stands in specs/Class.antt; the call that meets it is in crates/class.
#![tactic(auto)]

ghost use Rattle.std.specs.Prelude.{◌≡◌, ◌≤◌, ◌+◌, length};
ghost use Rattle.class_ends.specs.Class.{stored};
ghost use Rattle.class_ends.specs.Ends.{EndsFitSays, FairSays};

// The most sheets in one call.
pub const SHEETS: usize = 32;

// How many numbers each sheet gets: answer, count, a, b.
pub const EACH: usize = 4;

// Whether no end falls, none passes an input of `size` bytes, and the last is its length.
fn cut(size: usize, ends: &[u32]) -> bool
    ensures { EndsFitSays size ends.now result }
{
    let mut start: usize = 0;
    for end in ends {
        let end = *end as usize;
        if end < start {
            return false;
        }
        if size < end {
            return false;
        }
        start = end;
    }
    start == size
}

// Whether a class is not refused: an input of `size` bytes, and `room` places for the numbers.
pub fn fair(size: usize, ends: &[u32], room: usize) -> bool
    ensures { FairSays size ends.now room result }
{
    let n = ends.len();
    if SHEETS < n {
        return false;
    }
    let needed = n * EACH;
    if room < needed {
        return false;
    }
    cut(size, ends)
}

// Notes the four numbers of a sheet from a place on.
pub fn note(numbers: &mut [u32], at: usize, answer: u32, count: u32, a: u32, b: u32)
    requires { at + 4 ≤ length numbers.old }
    ensures { numbers.new ≡ stored at answer count a b numbers.old }
{
    numbers[at..at + EACH].copy_from_slice(&[answer, count, a, b]);
}
