// Where the parts of a record stand. Every crate asks here, so that no other place knows an offset within a record.
#![tactic(auto, unfolding(meaning::specs::Sheet::byte, meaning::specs::Sheet::next_at))]

ghost use Rattle.reader.specs.Parts.{LimitAsks, LimitRead, StepAsks, StepRead};

// A limit: whether it says exactly, its bound, and where its literals start and end.
#[derive(Clone, Copy)]
pub struct LimitParts {
    pub exact: bool,
    pub bound: u8,
    pub start: usize,
    pub end: usize,
}

// The parts of the limit whose length byte stands at `at`.
pub fn limit_parts(s: &[u8], at: usize) -> LimitParts
    requires { LimitAsks s.now at }
    ensures { LimitRead s.now at result }
{
    let len = s[at] as usize;
    let kind = at + 1;
    let bound = at + 2;
    LimitParts {
        exact: s[kind] == 0,
        bound: s[bound],
        start: at + 3,
        end: kind + len,
    }
}

// A step rule: where the literals of its left side start, where those of its right side start, and where these end.
#[derive(Clone, Copy)]
pub struct StepParts {
    pub left: usize,
    pub right: usize,
    pub end: usize,
}

// The parts of the step rule whose length byte stands at `at`.
pub fn step_parts(s: &[u8], at: usize) -> StepParts
    requires { StepAsks s.now at }
    ensures { StepRead s.now at result }
{
    let len = s[at] as usize;
    let count = at + 1;
    let left = at + 2;
    let a = s[count] as usize;
    StepParts {
        left,
        right: left + a,
        end: count + len,
    }
}
