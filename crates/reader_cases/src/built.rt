// Sheets too large to write out, built in a local array. A write past its end is dropped.
use super::show;
use reader::header::{
    FIRSTS_AT, LENGTH_AT, LENGTH_LOW_AT, LETTERS_AT, LIMITS_AT, PROMISES_AT, RECORDS_AT, STEPS_AT,
    VERSION_AT,
};
use std::io;

const ROOM: usize = 4097;

// Shows the first n bytes.
fn show_front(rt: &impl Print, name: &str, sheet: &[u8; ROOM], n: usize) -> io::Result<()> {
    match sheet.get(..n) {
        Some(front) => show(rt, name, front),
        None => Ok(()),
    }
}

fn put(sheet: &mut [u8; ROOM], at: usize, b: u8) {
    if let Some(place) = sheet.get_mut(at) {
        *place = b;
    }
}

// The version, the length, n and the four counts.
fn head(sheet: &mut [u8; ROOM], high: u8, low: u8, n: u8) {
    put(sheet, VERSION_AT, 1);
    put(sheet, LENGTH_AT, high);
    put(sheet, LENGTH_LOW_AT, low);
    put(sheet, LETTERS_AT, n);
}

fn counts(sheet: &mut [u8; ROOM], limits: u8, firsts: u8, steps: u8, promises: u8) {
    put(sheet, LIMITS_AT, limits);
    put(sheet, FIRSTS_AT, firsts);
    put(sheet, STEPS_AT, steps);
    put(sheet, PROMISES_AT, promises);
}

// The literals 1 to k in a row.
fn rising(sheet: &mut [u8; ROOM], at: usize, k: u8) {
    for i in 0..k {
        put(sheet, at.saturating_add(i as usize), i + 1);
    }
}

// `records` copies of a record of four bytes at most, and where they end.
fn repeat(
    sheet: &mut [u8; ROOM],
    at: usize,
    records: u16,
    size: usize,
    a: u8,
    b: u8,
    c: u8,
) -> usize {
    let mut end = at;
    for _record in 0..records {
        put(sheet, end, a);
        put(sheet, end.saturating_add(1), b);
        put(sheet, end.saturating_add(2), c);
        end = end.saturating_add(size);
    }
    end
}

// First rules of k literals, and where they end.
fn first_rules(sheet: &mut [u8; ROOM], at: usize, records: u16, k: u8) -> usize {
    let mut end = at;
    for _record in 0..records {
        put(sheet, end, k);
        rising(sheet, end.saturating_add(1), k);
        end = end.saturating_add(1 + k as usize);
    }
    end
}

// 4,096 bytes: 255 first rules, eight of 16 literals and the others of 15; the last starts at byte 4,080.
pub fn longest(rt: &impl Print) -> io::Result<()> {
    let mut sheet = [0u8; ROOM];
    head(&mut sheet, 16, 0, 24);
    counts(&mut sheet, 0, 255, 0, 0);
    let at = first_rules(&mut sheet, RECORDS_AT, 8, 16);
    first_rules(&mut sheet, at, 247, 15);
    show_front(rt, "4,096 bytes", &sheet, 4096)?;
    show_front(rt, "1: 4,097 bytes", &sheet, 4097)?;
    show_front(rt, "3: 4,095 bytes", &sheet, 4095)?;
    put(&mut sheet, 4095, 0);
    show_front(rt, "8: the last byte of 4,096", &sheet, 4096)?;
    put(&mut sheet, 4095, 14);
    show_front(rt, "9: the last byte of 4,096", &sheet, 4096)?;
    put(&mut sheet, 4080, 16);
    show_front(rt, "6: the last record of 4,096 bytes", &sheet, 4096)?;
    put(&mut sheet, 4080, 14);
    show_front(rt, "10: the last byte of 4,096", &sheet, 4096)
}

// All counts at their maxima, 901 bytes; the last promise starts at byte 899.
pub fn fullest(rt: &impl Print) -> io::Result<()> {
    let mut sheet = [0u8; ROOM];
    head(&mut sheet, 3, 133, 1);
    counts(&mut sheet, 32, 255, 255, 16);
    let firsts = repeat(&mut sheet, RECORDS_AT, 32, 3, 2, 0, 0);
    let steps = repeat(&mut sheet, firsts, 255, 1, 0, 0, 0);
    let promises = repeat(&mut sheet, steps, 255, 2, 1, 0, 0);
    repeat(&mut sheet, promises, 16, 2, 1, 1, 0);
    show_front(rt, "all counts at their maxima", &sheet, 901)?;
    put(&mut sheet, 900, 0);
    show_front(rt, "8: the last promise", &sheet, 901)?;
    put(&mut sheet, 899, 0);
    show_front(rt, "7: the last promise", &sheet, 901)?;
    put(&mut sheet, 899, 2);
    show_front(rt, "6: the last promise", &sheet, 901)?;
    put(&mut sheet, PROMISES_AT, 15);
    show_front(rt, "10: behind 15 promises", &sheet, 901)?;
    put(&mut sheet, PROMISES_AT, 17);
    show_front(rt, "5: one promise more", &sheet, 901)
}

// One record of 255 bytes, in a sheet of 264.
pub fn long_records(rt: &impl Print) -> io::Result<()> {
    let mut sheet = [0u8; ROOM];
    head(&mut sheet, 1, 8, 24);
    put(&mut sheet, RECORDS_AT, 255);
    rising(&mut sheet, RECORDS_AT + 1, 24);
    counts(&mut sheet, 0, 1, 0, 0);
    show_front(
        rt,
        "8: a first rule of 255 bytes, zeros behind",
        &sheet,
        264,
    )?;
    put(&mut sheet, 33, 24);
    show_front(
        rt,
        "9: a first rule of 255 bytes, a literal twice",
        &sheet,
        264,
    )?;
    counts(&mut sheet, 0, 0, 0, 1);
    show_front(rt, "7: a promise of 255 bytes", &sheet, 264)?;
    put(&mut sheet, LENGTH_LOW_AT, 7);
    show_front(
        rt,
        "6: a promise of 255 bytes, the last missing",
        &sheet,
        263,
    )
}
