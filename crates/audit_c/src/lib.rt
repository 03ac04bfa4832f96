// The audit's call for C, as a static library: it exports the function of crate audit that C calls, with the same promise. A slice passes
// as a pointer and a length. include/naxxurbi.h declares it.
#![tactic(auto)]

ghost use Rattle.audit_account.specs.Carry.{AuditedOut};

use audit::NUMBERS;
use ground::State;

// Audits a piece of a log, without the place: the account's 515 numbers are carried on where they stand.
#[unsafe(no_mangle)]
pub extern "C" fn naxxurbi_audit(
    sheet: &[u8],
    account: &mut [u32; NUMBERS],
    states: &[State],
) -> u32
    ensures { AuditedOut sheet.now account.old states.now result account.new }
{
    audit::naxxurbi_audit(sheet, account, states)
}
