// A header read, and headers and records written into a lent slice. Which bytes a sheet of given records has stands in specs/, the laws
// about it in proofs/. Bytes past the slice's end are not stored: a caller who needs them all has seen to the room before.
#![tactic(auto)]

ghost use Rattle.std.specs.Prelude.{◌≡◌, [], ◌∷◌, ◌≤◌, length};
ghost use Rattle.std.proofs.lemmas.List.Edits.{sets};
ghost use Rattle.reader.specs.Header.{records_at};
ghost use Rattle.records.specs.Records.{stated_in, header};
ghost use Rattle.records.specs.Writing.{BodyAsks, RecordsWritten};

use reader::header::{
    FIRSTS_AT, LENGTH_AT, LENGTH_LOW_AT, LETTERS_AT, LIMITS_AT, PROMISES_AT, RECORDS_AT, STEPS_AT,
    VERSION_AT,
};

// What a header states: the version, the length of the whole sheet, the letters, and how many records of each kind there are.
#[derive(Clone, Copy)]
pub struct Stated {
    pub version: u8,
    pub size: u16,
    pub letters: u8,
    pub limits: u8,
    pub firsts: u8,
    pub steps: u8,
    pub promises: u8,
}

// What a sheet's header states.
pub fn read_header(sheet: &[u8]) -> Stated
    requires { records_at ≤ length sheet.now }
    ensures { result ≡ stated_in sheet.now }
{
    Stated {
        version: sheet[VERSION_AT],
        size: u16::from_be_bytes([sheet[LENGTH_AT], sheet[LENGTH_LOW_AT]]),
        letters: sheet[LETTERS_AT],
        limits: sheet[LIMITS_AT],
        firsts: sheet[FIRSTS_AT],
        steps: sheet[STEPS_AT],
        promises: sheet[PROMISES_AT],
    }
}

// Writes a record, its length byte and its own bytes, from a place on; where the next record goes.
pub fn write_record(slice: &mut [u8], at: usize, body: &[u8]) -> usize
    requires { BodyAsks slice.old at body.now }
    ensures { RecordsWritten slice.old at (body.now ∷ []) slice.new result }
{
    let front = [body.len() as u8];
    ground::pieces::write(slice, at, &front);
    let start = at + front.len();
    ground::pieces::write(slice, start, body);
    start + body.len()
}

// Writes a header into the front of a slice.
pub fn write_header(slice: &mut [u8], stated: Stated)
    ensures { slice.new ≡ sets slice.old 0 (header stated) }
{
    let [high, low] = stated.size.to_be_bytes();
    let mut bytes = [0u8; RECORDS_AT];
    bytes[VERSION_AT] = stated.version;
    bytes[LENGTH_AT] = high;
    bytes[LENGTH_LOW_AT] = low;
    bytes[LETTERS_AT] = stated.letters;
    bytes[LIMITS_AT] = stated.limits;
    bytes[FIRSTS_AT] = stated.firsts;
    bytes[STEPS_AT] = stated.steps;
    bytes[PROMISES_AT] = stated.promises;
    ground::pieces::write(slice, 0, &bytes);
}
