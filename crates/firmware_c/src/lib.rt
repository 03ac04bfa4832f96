// The two checkers' calls for C, as a static library for a monitor's firmware: one export for each function of crate firmware, with the
// same promise. A `&[u8]` passes as a pointer and a length; each state or word is four bytes, big-endian. Nothing lent is changed.
//
// They return 0 (accepted), 1 to 10 (the sheet's first fault) or 14 (not accepted, or a length that is no multiple of four):
//   uint32_t naxxurbi_check_run(const uint8_t *sheet, size_t sheet_len, const uint8_t *states, size_t states_len, uint32_t a);
//   uint32_t naxxurbi_check_strikes(const uint8_t *sheet, size_t sheet_len, const uint8_t *states, size_t states_len,
//                                   const uint8_t *words, size_t words_len);
#![tactic(auto)]

ghost use Rattle.meaning.specs.Promises.{RunBytesChecked, StrikesBytesChecked};

// 0 exactly if the run of these states, read on from its last state back to place a, obeys the sheet; 1 to 10 for a bad sheet; else 14.
#[unsafe(no_mangle)]
pub extern "C" fn naxxurbi_check_run(sheet: &[u8], states: &[u8], a: u32) -> u32
    ensures { RunBytesChecked sheet.now states.now a result }
{
    firmware::naxxurbi_check_run(sheet, states, a)
}

// 0 exactly if this strike list is accepted, and then no run obeys the sheet; 1 to 10 for a bad sheet; else 14.
#[unsafe(no_mangle)]
pub extern "C" fn naxxurbi_check_strikes(sheet: &[u8], states: &[u8], words: &[u8]) -> u32
    ensures { StrikesBytesChecked sheet.now states.now words.now result }
{
    firmware::naxxurbi_check_strikes(sheet, states, words)
}
