// The reading cursor: each method takes it by value and gives back the moved cursor or the fault, checks in reading order.
#![tactic(auto, unfolding(meaning::specs::Sheet::byte, meaning::specs::Sheet::next_at))]

ghost use Rattle.std.specs.Prelude.{◌≡◌, ◌≤◌, length};
ghost use Rattle.meaning.specs.Sheet.{list_fault, a_limit, a_first, a_step, a_promise, next_at, end_at};
ghost use Rattle.reader.specs.Answer.{step_to, refusal, kind_of, record_step, next_step, records_step, end_step};
ghost use Rattle.reader.specs.Place.{part, ListAsks, SheetAsks};
ghost use Rattle.reader.specs.Whole.{sections_fault};

use super::header::{FIRSTS_AT, LETTERS_AT, LIMITS_AT, PROMISES_AT, STEPS_AT};
use super::literal::{names_letter, signed_below};
use super::parts::{limit_parts, step_parts};
use super::{Fault, Kind, Why};

// A place in a sheet. It does not hold the sheet and its number of letters, which every method is handed: the new form would be no plainer,
// since each equation on cursors would then be one on references as well.
#[derive(Clone, Copy)]
pub struct Cursor {
    pub at: usize,
}

// The fault that was met at this byte.
pub(crate) fn refuse(why: Why, at: usize) -> Result<Cursor, Fault>
    ensures { result ≡ refusal why at }
{
    Err(Fault { why, at })
}

impl Cursor {
    // One list of literals, from here up to `end`.
    pub fn list(self, s: &[u8], n: u8, end: usize) -> Result<Cursor, Fault>
        requires { ListAsks s.now self.at end }
        ensures { result ≡ step_to end (list_fault n self.at (part self.at end s.now)) }
    {
        let mut before: u8 = 128;
        for at in self.at..end {
            let b = s[at];
            if !names_letter(b, n) {
                return refuse(Why::BadLiteral, at);
            }
            if !signed_below(before, b) {
                return refuse(Why::NotAscending, at);
            }
            before = b;
        }
        Ok(Cursor { at: end })
    }

    // The limit whose length byte is here; like each record below, it is known to lie within the sheet.
    pub fn limit(self, s: &[u8], n: u8) -> Result<Cursor, Fault>
        requires { next_at s.now self.at ≤ length s.now }
        ensures { result ≡ record_step a_limit n s.now self.at }
    {
        let at = self.at;
        if s[at] < 2 {
            return refuse(Why::BadShape, at);
        }
        let kind = at + 1;
        if s[kind] > 1 {
            return refuse(Why::BadShape, at);
        }
        let p = limit_parts(s, at);
        let start = Cursor { at: p.start };
        start.list(s, n, p.end)
    }

    // The first rule whose length byte is here.
    pub fn first_rule(self, s: &[u8], n: u8) -> Result<Cursor, Fault>
        requires { next_at s.now self.at ≤ length s.now }
        ensures { result ≡ record_step a_first n s.now self.at }
    {
        let at = self.at;
        let start = at + 1;
        let end = start + s[at] as usize;
        let from = Cursor { at: start };
        from.list(s, n, end)
    }

    // The step rule whose length byte is here: its left side, then its right side.
    pub fn step_rule(self, s: &[u8], n: u8) -> Result<Cursor, Fault>
        requires { next_at s.now self.at ≤ length s.now }
        ensures { result ≡ record_step a_step n s.now self.at }
    {
        let at = self.at;
        let len = s[at];
        if len < 1 {
            return refuse(Why::BadShape, at);
        }
        let count = at + 1;
        if s[count] >= len {
            return refuse(Why::BadShape, at);
        }
        let p = step_parts(s, at);
        let left = Cursor { at: p.left };
        let right = left.list(s, n, p.right)?;
        right.list(s, n, p.end)
    }

    // The promise whose length byte is here.
    pub fn promise(self, s: &[u8], n: u8) -> Result<Cursor, Fault>
        requires { next_at s.now self.at ≤ length s.now }
        ensures { result ≡ record_step a_promise n s.now self.at }
    {
        let at = self.at;
        if s[at] != 1 {
            return refuse(Why::BadShape, at);
        }
        let start = at + 1;
        let end = at + 2;
        let from = Cursor { at: start };
        from.list(s, n, end)
    }

    // The next record, of a given kind: its length byte, if it has one, is here.
    pub fn record(self, kind: Kind, s: &[u8], n: u8) -> Result<Cursor, Fault>
        requires { self.at ≤ length s.now }
        ensures { result ≡ next_step (kind_of kind) n s.now self.at }
    {
        let at = self.at;
        if s.len() <= at {
            return refuse(Why::RecordMissing, at);
        }
        let len = s[at] as usize;
        let start = at + 1;
        if len > s.len() - start {
            return refuse(Why::RecordMissing, at);
        }
        match kind {
            Kind::Limit => self.limit(s, n),
            Kind::FirstRule => self.first_rule(s, n),
            Kind::StepRule => self.step_rule(s, n),
            Kind::Promise => self.promise(s, n),
        }
    }

    // The next `count` records, all of one kind.
    pub fn records(self, kind: Kind, s: &[u8], n: u8, count: u8) -> Result<Cursor, Fault>
        requires { self.at ≤ length s.now }
        ensures { result ≡ records_step (kind_of kind) n s.now count self.at }
    {
        let mut c = self;
        for _ in 0..count {
            c = c.record(kind, s, n)?;
        }
        Ok(c)
    }

    // All records and the sheet's end, from behind a good header.
    pub fn sections(self, s: &[u8]) -> Result<Cursor, Fault>
        requires { SheetAsks s.now self.at }
        ensures { result ≡ step_to (end_at s.now) (sections_fault s.now) }
    {
        let n = s[LETTERS_AT];
        let firsts = self.records(Kind::Limit, s, n, s[LIMITS_AT])?;
        let steps = firsts.records(Kind::FirstRule, s, n, s[FIRSTS_AT])?;
        let promises = steps.records(Kind::StepRule, s, n, s[STEPS_AT])?;
        let last = promises.records(Kind::Promise, s, n, s[PROMISES_AT])?;
        last.end(s)
    }

    // The sheet's end: no byte stands after the last record.
    pub fn end(self, s: &[u8]) -> Result<Cursor, Fault>
        ensures { result ≡ end_step s.now self.at }
    {
        let at = self.at;
        if at == s.len() {
            Ok(self)
        } else {
            refuse(Why::Surplus, at)
        }
    }
}
