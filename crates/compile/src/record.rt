// One record compiled into its row of the book. Each function answers where the next record begins.
ghost use Rattle.std.specs.Prelude.{◌≡◌, cond, ◌+◌, ◌≤◌, length};
ghost use Rattle.meaning.specs.Sheet.{a_limit, a_first, a_step};
ghost use Rattle.reader.specs.Answer.{kind_of};
ghost use Rattle.rules.specs.Book.{limit_width, list_width, step_width, width_of};
ghost use Rattle.compile.specs.Compile.{LimitSound, ListRecordSound, StepSound, Sound, RowWritten};

use super::build::put_list;
use reader::Kind;
use rules::book::{RIGHT, State, put_bounds};

// The least that may be true: the bound itself for exactly, 0 for at most.
fn least(exact: bool, bound: u8) -> State
    ensures { result ≡ cond exact bound 0 }
{
    if exact { bound as State } else { 0 }
}

// Compiles a limit: its masks, the least and the most. The record's length byte stands at `at`, its row begins at place `row` of the book;
// answers where the next record begins.
fn limit(sheet: &[u8], at: usize, book: &mut [State], row: usize) -> usize
    requires { LimitSound sheet.now at × (row + limit_width ≤ length book.old) }
    ensures { RowWritten a_limit sheet.now at book.old row book.new result }
{
    let p = reader::parts::limit_parts(sheet, at);
    put_list(&sheet[p.start..p.end], book, row);
    put_bounds(book, row, least(p.exact, p.bound), p.bound as State);
    p.end
}

// Compiles a first rule or a promise, the same way: the masks of its literals.
fn list(sheet: &[u8], at: usize, book: &mut [State], row: usize) -> usize
    requires { ListRecordSound sheet.now at × (row + list_width ≤ length book.old) }
    ensures { RowWritten a_first sheet.now at book.old row book.new result }
{
    let start = at + 1;
    let end = start + sheet[at] as usize;
    put_list(&sheet[start..end], book, row);
    end
}

// Compiles a step rule, the same way: the masks of its left and of its right side.
fn step(sheet: &[u8], at: usize, book: &mut [State], row: usize) -> usize
    requires { StepSound sheet.now at × (row + step_width ≤ length book.old) }
    ensures { RowWritten a_step sheet.now at book.old row book.new result }
{
    let p = reader::parts::step_parts(sheet, at);
    put_list(&sheet[p.left..p.right], book, row);
    put_list(&sheet[p.right..p.end], book, row + RIGHT);
    p.end
}

// Compiles a record of any kind, the same way.
pub fn compile(kind: Kind, sheet: &[u8], at: usize, book: &mut [State], row: usize) -> usize
    requires { Sound (kind_of kind) sheet.now at × (row + width_of (kind_of kind) ≤ length book.old) }
    ensures { RowWritten (kind_of kind) sheet.now at book.old row book.new result }
{
    match kind {
        Kind::Limit => limit(sheet, at, book, row),
        Kind::FirstRule | Kind::Promise => list(sheet, at, book, row),
        Kind::StepRule => step(sheet, at, book, row),
    }
}
