// The numbers that the public calls answer, by name. The ten faults of a sheet, 1 to 10, are the reader's (`reader::Why`). What a call
// leaves with each number is its promise; these are only the numbers, and specs/Answers.antt has the same for the promises.
#![tactic(auto)]

// Good sheet, can be kept, accepted, done.
pub const DONE: u32 = 0;

// More states can be reached than there is room for.
pub const TOO_MANY_STATES: u32 = 11;

// The sheet can be kept, but the slice lent for the run is too short for it.
pub const SHORT_RUN: u32 = 12;

// The sheet cannot be kept.
pub const CANNOT_BE_KEPT: u32 = 13;

// A paper or a proposal is not accepted.
pub const NOT_ACCEPTED: u32 = 14;

// A log is longer than an account may count.
pub const PAST_THE_MOST_MOMENTS: u32 = 15;

// A class is refused before any of its sheets is judged.
pub const CLASS_REFUSED: u32 = 16;

// Of the sheets that are tried with some rules left out, one has more reachable states than there is room for.
pub const TRIAL_WITHOUT_ROOM: u32 = 17;

// The serial lead is closed already.
pub const LEAD_CLOSED: u32 = 18;
