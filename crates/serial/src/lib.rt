// Sheets over the serial lead (document 02, order 6): pieces of a sheet are taken one by one into a buffer that the caller lends, and
// closing answers what the reader answers for the joined bytes, place included. What is known of a lead is a count and a mark, handed over
// by value; any two numbers may be handed in. What follows for pieces taken one after another is in proofs/Joined.antt.
#![tactic(auto)]

ghost use Rattle.std.specs.Prelude.{◌≡◌, length};
ghost use Rattle.meaning.specs.Sheet.{most_bytes_of_a_sheet};
ghost use Rattle.serial.specs.Serial.{Takes, Closes, Answers, TakesState, ClosesState, counted, lead_in, state_of};

use answers::{DONE, LEAD_CLOSED};
use reader::header::MOST_BYTES;
use reader::{Verdict, Why};

// The count that stands for more bytes than a sheet may have. It is no variant of an enum, nor is the mark below a bool, because of the C
// interface: callers keep the two numbers, and a refusal leaves them as they are, whatever they are (`Takes`, `TakesState`).
pub const MORE: usize = MOST_BYTES + 1;

// How many bytes have come, MORE standing for more than MOST_BYTES; and whether the lead is closed: 0 for an open one.
#[derive(Clone, Copy)]
pub struct Lead {
    pub taken: u32,
    pub closed: u32,
}

// A lead as callers in C keep it: the count and the mark.
impl From<[u32; 2]> for Lead {
    ghost from_gives = { λ state lead. lead ≡ lead_in state };

    fn from(state: [u32; 2]) -> Lead {
        let [taken, closed] = state;
        Lead { taken, closed }
    }
}

impl From<Lead> for [u32; 2] {
    ghost from_gives = { λ lead state. state ≡ state_of lead };

    fn from(lead: Lead) -> [u32; 2] {
        [lead.taken, lead.closed]
    }
}

// What taking a piece answers, and the lead after it. The answer is a number and no Result because it may not change: `Takes` and `Closes`
// speak of the number, the lead and the buffer together, on every answer.
#[derive(Clone, Copy)]
pub struct Taken {
    pub answer: u32,
    pub lead: Lead,
}

// What closing answers, the place beside it, and the lead after it.
#[derive(Clone, Copy)]
pub struct Closed {
    pub answer: u32,
    pub place: u32,
    pub lead: Lead,
}

// The count after so many more bytes.
fn count(taken: u32, more: usize) -> u32
    ensures { result ≡ counted taken more }
{
    let before = taken as usize;
    if MORE <= before {
        return taken;
    }
    let room = MORE - before;
    (before + more.min(room)) as u32
}

// What the reader answers for the first bytes of the buffer.
fn front(sheet: &[u8], taken: usize) -> Verdict
    requires { length sheet.now ≡ most_bytes_of_a_sheet }
    ensures { Answers taken sheet.now result.answer result.place }
{
    if MOST_BYTES < taken {
        return Verdict {
            answer: u32::from(Why::BadSize),
            place: 0,
        };
    }
    reader::verdict_on(&sheet[..taken])
}

// Takes a piece: 0, and its bytes stand behind those that came; after closing 18, and nothing is changed.
pub fn take(lead: Lead, sheet: &mut [u8; MOST_BYTES], piece: &[u8]) -> Taken
    ensures { Takes lead sheet.old piece.now result.answer result.lead sheet.new }
{
    let Lead { taken, closed } = lead;
    if closed != 0 {
        return Taken {
            answer: LEAD_CLOSED,
            lead,
        };
    }
    ground::pieces::write(sheet, taken as usize, piece);
    Taken {
        answer: DONE,
        lead: Lead {
            taken: count(taken, piece.len()),
            closed,
        },
    }
}

// Closes the lead: the reader's answer and place for what came; after closing 18, place 0, and nothing is changed.
pub fn close(lead: Lead, sheet: &[u8; MOST_BYTES]) -> Closed
    ensures { Closes lead sheet.now result.answer result.place result.lead }
{
    if lead.closed != 0 {
        return Closed {
            answer: LEAD_CLOSED,
            place: 0,
            lead,
        };
    }
    let taken = lead.taken;
    let told = front(sheet, taken as usize);
    Closed {
        answer: told.answer,
        place: told.place,
        lead: Lead { taken, closed: 1 },
    }
}

// Taking a piece for callers in C, to whom crate serial_c hands it: `state` is the count and the mark, 0 and 0 at first.
pub fn naxxurbi_serial_take(state: &mut [u32; 2], sheet: &mut [u8; MOST_BYTES], piece: &[u8]) -> u32
    ensures { TakesState state.old sheet.old piece.now result state.new sheet.new }
{
    let r = take(Lead::from(*state), sheet, piece);
    *state = <[u32; 2]>::from(r.lead);
    r.answer
}

// Closing for callers in C, likewise: answer and place go into `out`, in this order, on every answer.
pub fn naxxurbi_serial_close(state: &mut [u32; 2], sheet: &[u8; MOST_BYTES], out: &mut [u32; 2])
    ensures { ClosesState state.old sheet.now out.new state.new }
{
    let r = close(Lead::from(*state), sheet);
    *state = <[u32; 2]>::from(r.lead);
    *out = [r.answer, r.place];
}
