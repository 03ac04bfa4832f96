// The sheet reader: whether a sheet is good, or its first fault and the byte where it stands. One pass, front to back; nothing is copied
// and nothing changed. What a caller may rely on is the meaning's `first_fault` itself; in numbers it is `ReadPlaced` (`verdict_on`), and
// what follows for a good sheet is in proofs/Good.antt.
#![tactic(auto)]

ghost use Rattle.std.specs.Prelude.{◌≡◌, ◌≤◌};
ghost use Rattle.meaning.specs.Sheet.{end_at, first_fault, most_bytes_of_a_sheet};
ghost use Rattle.meaning.specs.Promises.{ReadSays, ReadPlaced, ReadOut};
ghost use Rattle.reader.specs.Answer.{step_to, why_number, numbers_of, answer_of, in_numbers_of};

use cursor::Cursor;

pub mod cursor;
pub mod header;
pub mod literal;
pub mod parts;

// What can be wrong with a sheet, in the order of document 01's numbers 1 to 10.
#[derive(Clone, Copy)]
pub enum Why {
    BadSize,
    BadVersion,
    BadLength,
    BadLetters,
    TooMany,
    RecordMissing,
    BadShape,
    BadLiteral,
    NotAscending,
    Surplus,
}

// A fault and the byte where it was met: its place.
#[derive(Clone, Copy)]
pub struct Fault {
    pub why: Why,
    pub at: usize,
}

// The four kinds of records.
#[derive(Clone, Copy)]
pub enum Kind {
    Limit,
    FirstRule,
    StepRule,
    Promise,
}

// An answer in numbers: document 01's number, and the place of a bad sheet's fault, 0 on every other answer.
#[derive(Clone, Copy)]
pub struct Verdict {
    pub answer: u32,
    pub place: u32,
}

// The sheet's first fault, or a cursor at its end.
fn walk(sheet: &[u8]) -> Result<Cursor, Fault>
    ensures { result ≡ step_to (end_at sheet.now) (first_fault sheet.now) }
{
    let first = header::header(sheet)?;
    first.sections(sheet)
}

// Whether a sheet is good, or what its first fault is and where.
pub fn read(sheet: &[u8]) -> Result<(), Fault>
    ensures { result ≡ answer_of (first_fault sheet.now) }
{
    walk(sheet)?;
    Ok(())
}

// Document 01's number for a fault.
impl From<Why> for u32 {
    ghost from_gives = { λ why n. n ≡ why_number why };

    fn from(why: Why) -> u32 {
        match why {
            Why::BadSize => 1,
            Why::BadVersion => 2,
            Why::BadLength => 3,
            Why::BadLetters => 4,
            Why::TooMany => 5,
            Why::RecordMissing => 6,
            Why::BadShape => 7,
            Why::BadLiteral => 8,
            Why::NotAscending => 9,
            Why::Surplus => 10,
        }
    }
}

// A fault in numbers. Its place is within a sheet, so it fits.
fn in_numbers(f: Fault) -> Verdict
    requires { f.at ≤ most_bytes_of_a_sheet }
    ensures { result ≡ numbers_of f }
{
    Verdict {
        answer: u32::from(f.why),
        place: f.at as u32,
    }
}

// Reads a sheet for a call that answers in numbers: every call that takes a sheet refuses a bad one by these two.
pub fn read_in_numbers(sheet: &[u8]) -> Result<(), Verdict>
    ensures { result ≡ in_numbers_of (first_fault sheet.now) }
{
    read(sheet).map_err(in_numbers)
}

// The reader's own answer in numbers: 0 for a good sheet, or the number and the place of its first fault.
pub fn verdict_on(sheet: &[u8]) -> Verdict
    ensures { ReadPlaced sheet.now result.answer result.place }
{
    match read_in_numbers(sheet) {
        Ok(()) => Verdict {
            answer: 0,
            place: 0,
        },
        Err(v) => v,
    }
}

// The number for callers in C, to whom crate reader_c hands it: 0 for a good sheet, or that of its first fault.
pub fn naxxurbi_read(sheet: &[u8]) -> u32
    ensures { ReadSays sheet.now result }
{
    verdict_on(sheet).answer
}

// The same with the place: number and place go into `out`, in this order, whatever the sheet. The place of a good sheet is 0.
pub fn naxxurbi_read_place(sheet: &[u8], out: &mut [u32; 2])
    ensures { ReadOut sheet.now out.new }
{
    let v = verdict_on(sheet);
    *out = [v.answer, v.place];
}
