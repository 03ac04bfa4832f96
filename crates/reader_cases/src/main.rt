// Runs the reader on document 01's border cases and writes for each its name, the reader's number and the fault's place. Every fault stands
// once at its first and once at its last possible place; where a sheet has two faults, reading order decides.
#![tactic(auto)]

use std::io;

mod built;

// Reads a case's sheet and prints its name, the reader's number for the sheet, and the place.
pub fn show(rt: &impl Print, name: &str, sheet: &[u8]) -> io::Result<()> {
    let v = reader::verdict_on(sheet);
    println!(rt; "{name}: {} at {}", v.answer, v.place)
}

fn show_all(rt: &impl Print, cases: &[(&str, &[u8])]) -> io::Result<()> {
    for (name, sheet) in cases {
        show(rt, name, sheet)?;
    }
    Ok(())
}

const GOOD: [(&str, &[u8]); 8] = [
    ("W1: a header alone", b"\x01\x00\x08\x01\x00\x00\x00\x00"),
    (
        "W4",
        b"\x01\x00\x14\x01\x00\x01\x02\x01\x01\x01\x03\x01\x01\xff\x03\x01\xff\xff\x01\x01",
    ),
    (
        "W5: a step rule with both sides empty",
        b"\x01\x00\x0a\x01\x00\x00\x01\x00\x01\x00",
    ),
    (
        "W10: a letter and its opposite",
        b"\x01\x00\x0d\x01\x01\x00\x00\x00\x04\x00\x01\xff\x01",
    ),
    (
        "-2 -1 1 2",
        b"\x01\x00\x0d\x02\x00\x01\x00\x00\x04\xfe\xff\x01\x02",
    ),
    (
        "24 letters, literals -24 and 24",
        b"\x01\x00\x0b\x18\x00\x01\x00\x00\x02\xe8\x18",
    ),
    (
        "an empty first rule",
        b"\x01\x00\x09\x01\x00\x01\x00\x00\x00",
    ),
    (
        "a bound of 255",
        b"\x01\x00\x0b\x01\x01\x00\x00\x00\x02\x01\xff",
    ),
];

const HEADERS: [(&str, &[u8]); 11] = [
    ("1: no bytes", b""),
    ("1: 7 bytes", b"\x01\x00\x07\x01\x00\x00\x00"),
    ("2: version 0", b"\x00\x00\x08\x01\x00\x00\x00\x00"),
    ("2: version 2", b"\x02\x00\x08\x01\x00\x00\x00\x00"),
    ("3: one less", b"\x01\x00\x07\x01\x00\x00\x00\x00"),
    ("3: one more", b"\x01\x00\x09\x01\x00\x00\x00\x00"),
    ("3: the high byte", b"\x01\x01\x08\x01\x00\x00\x00\x00"),
    ("4: no letters", b"\x01\x00\x08\x00\x00\x00\x00\x00"),
    ("4: 25 letters", b"\x01\x00\x08\x19\x00\x00\x00\x00"),
    ("5: 33 limits", b"\x01\x00\x08\x01\x21\x00\x00\x00"),
    ("5: 17 promises", b"\x01\x00\x08\x01\x00\x00\x00\x11"),
];

const RECORDS: [(&str, &[u8]); 9] = [
    (
        "6: the first limit missing",
        b"\x01\x00\x08\x01\x20\x00\x00\x00",
    ),
    (
        "6: the first limit a byte past the end",
        b"\x01\x00\x0b\x01\x01\x00\x00\x00\x03\x00\x00",
    ),
    (
        "6: the only promise missing",
        b"\x01\x00\x08\x01\x00\x00\x00\x01",
    ),
    (
        "7: a limit of one byte",
        b"\x01\x00\x0a\x01\x01\x00\x00\x00\x01\x00",
    ),
    (
        "7: a limit of kind 2",
        b"\x01\x00\x0b\x01\x01\x00\x00\x00\x02\x02\x00",
    ),
    (
        "7: an empty step rule",
        b"\x01\x00\x09\x01\x00\x00\x01\x00\x00",
    ),
    (
        "7: a step rule with a too large",
        b"\x01\x00\x0b\x01\x00\x00\x01\x00\x02\x02\x01",
    ),
    (
        "7: an empty promise",
        b"\x01\x00\x09\x01\x00\x00\x00\x01\x00",
    ),
    (
        "7: a promise of two literals",
        b"\x01\x00\x0b\x01\x00\x00\x00\x01\x02\xff\x01",
    ),
];

const SURPLUS: [(&str, &[u8]); 2] = [
    ("10: one byte", b"\x01\x00\x09\x01\x00\x00\x00\x00\x00"),
    (
        "10: a record too many",
        b"\x01\x00\x0c\x01\x00\x00\x00\x01\x01\x01\x01\x01",
    ),
];

const LISTS: [(&str, &[u8]); 7] = [
    (
        "8: zero in the first limit",
        b"\x01\x00\x0c\x01\x01\x00\x00\x00\x03\x00\x01\x00",
    ),
    (
        "8: a size above n",
        b"\x01\x00\x0a\x01\x00\x01\x00\x00\x01\x02",
    ),
    (
        "8: a size above n, negative",
        b"\x01\x00\x0a\x01\x00\x01\x00\x00\x01\xfe",
    ),
    (
        "8: byte 128 with 24 letters",
        b"\x01\x00\x0a\x18\x00\x01\x00\x00\x01\x80",
    ),
    ("8: byte 127", b"\x01\x00\x0a\x18\x00\x01\x00\x00\x01\x7f"),
    (
        "8: in a left side",
        b"\x01\x00\x0b\x01\x00\x00\x01\x00\x02\x01\x00",
    ),
    (
        "8: in a promise",
        b"\x01\x00\x0a\x01\x00\x00\x00\x01\x01\x00",
    ),
];

const ORDERS: [(&str, &[u8]); 4] = [
    (
        "9: a literal twice",
        b"\x01\x00\x0d\x01\x01\x00\x00\x00\x04\x01\x01\x01\x01",
    ),
    ("9: 1 -1", b"\x01\x00\x0b\x01\x00\x01\x00\x00\x02\x01\xff"),
    (
        "9: in a right side",
        b"\x01\x00\x0c\x02\x00\x00\x01\x00\x03\x00\x02\x01",
    ),
    (
        "two sides are two lists",
        b"\x01\x00\x0c\x02\x00\x00\x01\x00\x03\x01\x02\x01",
    ),
];

const TWO_AT_ONCE: [(&str, &[u8]); 11] = [
    ("1 before 2", b"\x02\x00\x07\x01\x00\x00\x00"),
    ("2 before 3", b"\x02\x00\x09\x01\x00\x00\x00\x00"),
    ("3 before 4", b"\x01\x00\x09\x00\x00\x00\x00\x00"),
    ("4 before 5", b"\x01\x00\x08\x00\x21\x00\x00\x00"),
    ("5 before 6", b"\x01\x00\x08\x01\x01\x00\x00\x11"),
    ("6 before 7", b"\x01\x00\x0a\x01\x00\x00\x00\x01\x02\x01"),
    (
        "7 before 8",
        b"\x01\x00\x0c\x01\x01\x00\x00\x00\x03\x02\x01\x00",
    ),
    (
        "8 before 9",
        b"\x01\x00\x0b\x01\x00\x01\x00\x00\x02\x01\x00",
    ),
    (
        "9 before 6",
        b"\x01\x00\x0b\x01\x00\x02\x00\x00\x02\x01\x01",
    ),
    (
        "9 in the left side before 8 in the right",
        b"\x01\x00\x0d\x01\x00\x00\x01\x00\x04\x02\x01\x01\x00",
    ),
    (
        "9 before 10",
        b"\x01\x00\x0c\x01\x00\x01\x00\x00\x02\x01\x01\x00",
    ),
];

fn main(rt: HostRuntime) -> io::Result<()> {
    show_all(&rt, &GOOD)?;
    show_all(&rt, &HEADERS)?;
    show_all(&rt, &RECORDS)?;
    show_all(&rt, &SURPLUS)?;
    show_all(&rt, &LISTS)?;
    show_all(&rt, &ORDERS)?;
    show_all(&rt, &TWO_AT_ONCE)?;
    built::longest(&rt)?;
    built::fullest(&rt)?;
    built::long_records(&rt)
}
