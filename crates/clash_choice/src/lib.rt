// A sheet with a choice of its step rules, written down as a sheet of its own (document 02, order 5): the records of the other step rules
// are dropped, and the count of step rules and the stated length are set right. All else stands as it stood.
#![tactic(auto)]

ghost use Rattle.std.specs.Prelude.{◌≡◌, ◌≤◌, length};
ghost use Rattle.std.proofs.Math.Option.{none};
ghost use Rattle.meaning.specs.Sheet.{next_at, after_at, steps_at, first_fault};
ghost use Rattle.clash_choice.specs.Choice.{Wrote};
ghost use Rattle.clash_choice.specs.Writing.{Within, RuleAsks, Added, marked, RulesAsk, RulesWritten};

use reader::header::{FIRSTS_AT, LIMITS_AT, MOST_BYTES, RECORDS_AT, STEPS_AT};

pub mod proposals;

// The most step rules that a sheet can have.
pub const RULES: usize = ground::MOST_RULES;

// How far the writing is: the place read next, the place written next, and how many step rules were written.
#[derive(Clone, Copy)]
struct Progress {
    pub from: usize,
    pub to: usize,
    pub rules: u8,
}

// Where the record at a place ends.
fn next(sheet: &[u8], at: usize) -> usize
    requires { next_at sheet.now at ≤ length sheet.now }
    ensures { result ≡ next_at sheet.now at }
{
    at + 1 + sheet[at] as usize
}

// Where `count` records end, the first of them at `from`.
fn skip(sheet: &[u8], count: u8, from: usize) -> usize
    requires { Within sheet.now count from }
    ensures { result ≡ after_at sheet.now count from }
{
    let mut at = from;
    for _record in 0..count {
        at = next(sheet, at);
    }
    at
}

// Where the step rules begin.
fn steps_at(sheet: &[u8]) -> usize
    requires { first_fault sheet.now ≡ none }
    ensures { result ≡ steps_at sheet.now }
{
    let at = skip(sheet, sheet[LIMITS_AT], RECORDS_AT);
    skip(sheet, sheet[FIRSTS_AT], at)
}

// Writes the next step rule behind what was written, if its mark is not 0.
fn write_rule(sheet: &[u8], mark: u8, buffer: &mut [u8; MOST_BYTES], p: Progress) -> Progress
    requires { RuleAsks sheet.now p }
    ensures { Added (marked sheet.now mark p.from) (next_at sheet.now p.from)
        buffer.old p buffer.new result }
{
    let end = next(sheet, p.from);
    if mark == 0 {
        return Progress { from: end, ..p };
    }
    let rule = &sheet[p.from + 1..end];
    let to = records::write_record(buffer, p.to, rule);
    Progress {
        from: end,
        to,
        rules: p.rules + 1,
    }
}

// Writes the marked ones of `count` step rules into the place where they begin in the sheet.
fn write_rules(
    sheet: &[u8],
    marks: &[u8; RULES],
    buffer: &mut [u8; MOST_BYTES],
    count: u8,
    at: usize,
) -> Progress
    requires { RulesAsk sheet.now count at }
    ensures { RulesWritten sheet.now marks.now count at buffer.old buffer.new result }
{
    let mut p = Progress {
        from: at,
        to: at,
        rules: 0,
    };
    for mark in &marks[..count as usize] {
        p = write_rule(sheet, *mark, buffer, p);
    }
    p
}

// Writes the sheet with only those step rules whose mark is not 0 into the front of a buffer; how many bytes it has.
pub fn write_chosen(sheet: &[u8], marks: &[u8; RULES], buffer: &mut [u8; MOST_BYTES]) -> usize
    requires { first_fault sheet.now ≡ none }
    ensures { Wrote sheet.now marks.now buffer.new result }
{
    let at = steps_at(sheet);
    let front = &sheet[RECORDS_AT..at];
    ground::pieces::write(buffer, RECORDS_AT, front);
    let count = sheet[STEPS_AT];
    let p = write_rules(sheet, marks, buffer, count, at);
    let from = p.from;
    let to = p.to;
    let promises = &sheet[from..];
    ground::pieces::write(buffer, to, promises);
    let size = to + promises.len();
    let mut stated = records::read_header(sheet);
    stated.size = size as u16;
    stated.steps = p.rules;
    records::write_header(buffer, stated);
    size
}
