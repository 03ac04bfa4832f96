// Judges the rule sheet on standard input and prints answer, count, a and b. A thin program over the proved judge: it lends 4,096 numbers
// each for table, words and run and 8,192 for scratch. It reads one byte more than a sheet may have, so that any longer input is too long.
// A read or a write that fails ends it with that error.
#![tactic(auto)]

ghost use Rattle.std.specs.Prelude.{◌≡◌, ◌⊎◌, length, take, IfOk};
ghost use Rattle.std.specs.Io.{ReadsAtMost};
ghost use Rattle.std.specs.Io.KnownBytes.{Consumes, IsAtEnd};

use judge::State;
use std::io;
use std::io::Read;

const MOST: usize = 4097;

// Reads until the room is full or the input ends, however few bytes each read brings; how many bytes came.
fn read_full<R: Read>(reader: &mut R, room: &mut [u8]) -> io::Result<usize>
    ensures bound { ReadsAtMost result room.new }
    ensures bytes { IfOk result (λ n. Consumes (R.remaining reader.old) (R.remaining reader.new)
        (take n room.new)) }
    ensures all { IfOk result (λ n. (n ≡ length room.new) ⊎ IsAtEnd (R.remaining reader.new)) }
{
    let mut done = 0;
    // No `for`: a turn goes on by as many bytes as its read brings.
    while done < room.len() {
        let n = reader.read(&mut room[done..])?;
        if n == 0 {
            break;
        }
        done += n;
    }
    Ok(done)
}

// Judges a sheet with the room that the program lends, and prints the four numbers, parted by one space and ended by byte 10.
fn judge_and_print(rt: &impl Print, sheet: &[u8]) -> io::Result<()> {
    let mut table: [State; 4096] = [0; 4096];
    let mut words = [0u32; 4096];
    let mut scratch: [State; 8192] = [0; 8192];
    let mut run: [State; 4096] = [0; 4096];
    let found = judge::judge(sheet, &mut table, &mut words, &mut scratch, &mut run);
    println!(rt; "{} {} {} {}", found.answer, found.count, found.a, found.b)
}

fn main(rt: HostRuntime) -> io::Result<()> {
    let mut sheet = [0u8; MOST];
    let n = read_full(&mut rt.stdin(), &mut sheet)?;
    judge_and_print(&rt, &sheet[..n])
}
