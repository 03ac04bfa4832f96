// The audit of a log: a monitor's recorded states held against a sheet, piece by piece. What an account tells of a whole log is said in
// crates/audit_account/specs/Account.antt, what the call promises in Carry.antt there, and that cutting a log does not show in
// crates/audit_account/proofs. It stands on the sheet reader and the compiled rules alone.
#![tactic(auto)]

ghost use Rattle.std.specs.Prelude.{◌≡◌, length};
ghost use Rattle.std.proofs.Math.Option.{none};
ghost use Rattle.meaning.specs.Sheet.{first_fault};
ghost use Rattle.ground.specs.Says.{Says};
ghost use Rattle.audit_account.specs.Carry.{empty, SomePast, PastCount, PastBy, Audited, AuditedOut};
ghost use Rattle.audit.specs.Given.{account_of};

use answers::{DONE, PAST_THE_MOST_MOMENTS};
use ground::State;
use rules::Book;

mod carry;
mod numbers;

// How many tallies an account has, and how many numbers it is for callers in C.
pub use audit_follow::TALLIES;
pub use numbers::NUMBERS;

// The most moments that an account may count.
pub const MOMENTS: u32 = 1000000;

// The account of a log so far: how many moments; the last state; what the first breach was (0 none, 1 unlawful, 2 first rule, 3 step rule),
// its moment and its step rule; and for each step rule how often its left side led to a kept move and how often to a broken one. The fields
// stand side by side, with no `Head` in them, as callers write and read them: the public layout.
#[derive(Clone, Copy)]
pub struct Account {
    pub count: u32,
    pub last: State,
    pub what: u32,
    pub moment: u32,
    pub rule: u32,
    pub kept: [u32; TALLIES],
    pub broken: [u32; TALLIES],
}

// What the audit hands back: 0 and the account carried on; 1 to 10 with a place for a bad sheet, or 15, and the account as it was.
#[derive(Clone, Copy)]
pub struct Report {
    pub answer: u32,
    pub place: u32,
    pub account: Account,
}

// The account of nothing yet.
pub fn fresh() -> Account
    ensures { account_of result ≡ empty }
{
    Account {
        count: 0,
        last: 0,
        what: 0,
        moment: 0,
        rule: 0,
        kept: [0; TALLIES],
        broken: [0; TALLIES],
    }
}

// Whether some tally is past the most moments.
fn some_past(tallies: &[u32; TALLIES]) -> bool
    ensures { Says (SomePast tallies.now) result }
{
    tallies.iter().any(|tally| *tally > MOMENTS)
}

// Whether a count and a piece of `more` states are past the most moments.
fn count_past(count: u32, more: usize) -> bool
    ensures { Says (PastCount count more) result }
{
    if count > MOMENTS {
        return true;
    }
    let room = MOMENTS - count;
    (room as usize) < more
}

// Whether the account, or the account with a piece of `more` states, is past what an account may count.
fn past(account: Account, more: usize) -> bool
    ensures { Says (PastBy (account_of account) more) result }
{
    count_past(account.count, more) || some_past(&account.kept) || some_past(&account.broken)
}

// Carries the account on under a good sheet.
fn audit_good(sheet: &[u8], account: Account, states: &[State]) -> Report
    requires { first_fault sheet.now ≡ none }
    ensures { Audited sheet.now (account_of account) states.now result.answer result.place
        (account_of result.account) }
{
    if past(account, states.len()) {
        return Report {
            answer: PAST_THE_MOST_MOMENTS,
            place: 0,
            account,
        };
    }
    let mut numbers = [0 as State; rules::BOOK_SIZE];
    compile::compile(sheet, &mut numbers);
    let book = Book { numbers: &numbers };
    let back = carry::carry(&book, account, states);
    Report {
        answer: DONE,
        place: 0,
        account: back,
    }
}

// Audits a piece of a log: holds these states, which come behind those that the account has counted, against the sheet. Any account may be
// handed in. 0 and the account carried on; a bad sheet's 1 to 10 and the place of its fault; 15 where the account or the piece passes
// 1,000,000 moments. A refusal hands the account back as it was.
pub fn audit(sheet: &[u8], account: Account, states: &[State]) -> Report
    ensures { Audited sheet.now (account_of account) states.now result.answer result.place
        (account_of result.account) }
{
    match reader::read_in_numbers(sheet) {
        Ok(()) => audit_good(sheet, account, states),
        Err(v) => Report {
            answer: v.answer,
            place: v.place,
            account,
        },
    }
}

// The same for callers in C, to whom crate audit_c hands it, without the place: the account's 515 numbers are carried on where they stand.
// It is the C interface, so it stands beside `audit`.
pub fn naxxurbi_audit(sheet: &[u8], account: &mut [u32; numbers::NUMBERS], states: &[State]) -> u32
    ensures { AuditedOut sheet.now account.old states.now result account.new }
{
    let report = audit(sheet, Account::from(&*account), states);
    let back = <[u32; NUMBERS]>::from(&report.account);
    *account = back;
    report.answer
}
