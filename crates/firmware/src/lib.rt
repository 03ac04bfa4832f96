// The two calls for a monitor's firmware: a proposed run and a proposed strike list, as bytes; each state or word is four bytes,
// big-endian. Crate firmware_c hands them to callers in C. Nothing lent is changed.
//
// They return 0 (accepted), 1 to 10 (the sheet's first fault) or 14 (not accepted, or a length that is no multiple of four).
#![tactic(auto)]

ghost use Rattle.meaning.specs.Promises.{RunBytesChecked, StrikesBytesChecked};

// 0 exactly if the run of these states, read on from its last state back to place a, obeys the sheet; 1 to 10 for a bad sheet; else 14.
pub fn naxxurbi_check_run(sheet: &[u8], states: &[u8], a: u32) -> u32
    ensures { RunBytesChecked sheet.now states.now a result }
{
    runcheck::check_run_bytes(sheet, states, a)
}

// 0 exactly if this strike list is accepted, and then no run obeys the sheet; 1 to 10 for a bad sheet; else 14.
pub fn naxxurbi_check_strikes(sheet: &[u8], states: &[u8], words: &[u8]) -> u32
    ensures { StrikesBytesChecked sheet.now states.now words.now result }
{
    strikecheck::check_strikes_bytes(sheet, states, words)
}
