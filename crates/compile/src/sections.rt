// A sheet's sections compiled in order, each record into its row, and the counts in front.
ghost use Rattle.std.specs.Prelude.{◌≡◌, ◌≤◌, length};
ghost use Rattle.std.proofs.Math.Option.{none};
ghost use Rattle.meaning.specs.Sheet.{first_fault, decode};
ghost use Rattle.reader.specs.Answer.{kind_of};
ghost use Rattle.rules.specs.Book.{book_size, most_rules, row_at};
ghost use Rattle.compile.specs.Compile.{Counts, SectionAsks, Section};
ghost use Rattle.compile.specs.Promise.{BookOf};

use super::record;
use reader::Kind;
use reader::header::{FIRSTS_AT, LETTERS_AT, LIMITS_AT, PROMISES_AT, RECORDS_AT, STEPS_AT};
use rules::book::{FIRSTS, LIMITS, PROMISES, STEPS, State, put_counts};

// Writes the five counts of a good sheet.
fn counts(sheet: &[u8], book: &mut [State])
    requires { (first_fault sheet.now ≡ none) × (length book.old ≡ book_size) }
    ensures { Counts sheet.now book.new × (length book.new ≡ book_size) }
{
    let letters = sheet[LETTERS_AT] as State;
    let limits = sheet[LIMITS_AT] as State;
    let firsts = sheet[FIRSTS_AT] as State;
    let steps = sheet[STEPS_AT] as State;
    let promises = sheet[PROMISES_AT] as State;
    put_counts(book, letters, limits, firsts, steps, promises);
}

// Where row i of a kind begins.
fn row_at(kind: Kind, i: usize) -> usize
    requires { i ≤ most_rules }
    ensures { result ≡ row_at (kind_of kind) i }
{
    match kind {
        Kind::Limit => LIMITS.at(i),
        Kind::FirstRule => FIRSTS.at(i),
        Kind::StepRule => STEPS.at(i),
        Kind::Promise => PROMISES.at(i),
    }
}

// The `count` records of a kind, from `from` on; where the next kind's begin.
fn section(kind: Kind, sheet: &[u8], count: u8, from: usize, book: &mut [State]) -> usize
    requires { SectionAsks (kind_of kind) sheet.now book.old count from }
    ensures { Section (kind_of kind) sheet.now book.old book.new count result }
{
    let mut at = from;
    for i in 0..count as usize {
        at = record::compile(kind, sheet, at, book, row_at(kind, i));
    }
    at
}

// Compiles a good sheet into its book, a slice of BOOK_SIZE numbers; what stood there does not matter.
pub fn compile(sheet: &[u8], book: &mut [State])
    requires { (first_fault sheet.now ≡ none) × (length book.old ≡ book_size) }
    ensures { BookOf (decode sheet.now) book.new }
{
    counts(sheet, book);
    let first_rules = section(Kind::Limit, sheet, sheet[LIMITS_AT], RECORDS_AT, book);
    let step_rules = section(Kind::FirstRule, sheet, sheet[FIRSTS_AT], first_rules, book);
    let promises = section(Kind::StepRule, sheet, sheet[STEPS_AT], step_rules, book);
    section(Kind::Promise, sheet, sheet[PROMISES_AT], promises, book);
}
