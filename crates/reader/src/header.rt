// A sheet's first eight bytes: document 01's faults 1 to 5, in that order.
ghost use Rattle.std.specs.Prelude.{◌≡◌, eqb};
ghost use Rattle.meaning.specs.Sheet.{least_bytes};
ghost use Rattle.reader.specs.Answer.{step_to};
ghost use Rattle.reader.specs.Whole.{header_fault};

use super::cursor::{Cursor, refuse};
use super::{Fault, Why};

// Document 01's bounds.
pub const LEAST_BYTES: usize = 8;

pub const MOST_BYTES: usize = 4096;

pub const MOST_LETTERS: u8 = ground::MOST_LETTERS as u8;

pub const MOST_LIMITS: u8 = ground::MOST_LIMITS as u8;

pub const MOST_PROMISES: u8 = ground::MOST_PROMISES as u8;

// Where the header has what, for every crate (specs/Header.antt says it for specs and proofs): the version; the length, high byte and low
// byte; the letters; how many limits, first rules, step rules and promises there are. The records start behind it.
pub const VERSION_AT: usize = 0;

pub const LENGTH_AT: usize = 1;

pub const LENGTH_LOW_AT: usize = LENGTH_AT + 1;

pub const LETTERS_AT: usize = 3;

pub const LIMITS_AT: usize = 4;

pub const FIRSTS_AT: usize = 5;

pub const STEPS_AT: usize = 6;

pub const PROMISES_AT: usize = 7;

pub const RECORDS_AT: usize = LEAST_BYTES;

// Whether a sheet of this version is read.
pub fn version_ok(version: u8) -> bool
    ensures { result ≡ eqb version 1 }
{
    version == 1
}

// The header's first fault, or a cursor at the first record.
pub fn header(s: &[u8]) -> Result<Cursor, Fault>
    ensures { result ≡ step_to least_bytes (header_fault s.now) }
{
    let len = s.len();
    if len < LEAST_BYTES || len > MOST_BYTES {
        return refuse(Why::BadSize, 0);
    }
    if !version_ok(s[VERSION_AT]) {
        return refuse(Why::BadVersion, VERSION_AT);
    }
    let stated = u16::from_be_bytes([s[LENGTH_AT], s[LENGTH_LOW_AT]]);
    if stated as usize != len {
        return refuse(Why::BadLength, LENGTH_AT);
    }
    let n = s[LETTERS_AT];
    if n < 1 || n > MOST_LETTERS {
        return refuse(Why::BadLetters, LETTERS_AT);
    }
    if s[LIMITS_AT] > MOST_LIMITS {
        return refuse(Why::TooMany, LIMITS_AT);
    }
    if s[PROMISES_AT] > MOST_PROMISES {
        return refuse(Why::TooMany, PROMISES_AT);
    }
    Ok(Cursor { at: RECORDS_AT })
}
