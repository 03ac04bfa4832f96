// An account as 515 numbers, for callers in C.
ghost use Rattle.std.specs.Prelude.{◌≡◌, ◌+◌, ◌≤◌, length};
ghost use Rattle.audit_account.specs.Carry.{numbers_at, read_account, write_account};
ghost use Rattle.audit_account.specs.Book.{Copied};
ghost use Rattle.audit.specs.Given.{account_of};

use super::Account;
use audit_follow::TALLIES;
use ground::State;

// How many numbers an account is, and where the tallies of kept and of broken moves begin.
pub const NUMBERS: usize = 515;

const KEPT: usize = 5;

const BROKEN: usize = 260;

// The 255 numbers from a place on.
fn tallies_at(numbers: &[u32; NUMBERS], from: usize) -> [u32; TALLIES]
    requires { from + 255 ≤ 515 }
    ensures { result ≡ numbers_at 255 numbers.now from }
{
    let mut tallies = [0u32; TALLIES];
    tallies.copy_from_slice(&numbers[from..from + TALLIES]);
    tallies
}

// Writes 255 numbers from a place on.
fn put_tallies(numbers: &mut [u32; NUMBERS], from: usize, tallies: &[u32; TALLIES])
    requires { (from + 255 ≤ 515) × (length numbers.old ≡ 515) }
    ensures { Copied 255 tallies.now 0 numbers.old from numbers.new }
{
    numbers[from..from + TALLIES].copy_from_slice(tallies);
}

// The account that 515 numbers stand for.
impl From<&[u32; NUMBERS]> for Account {
    ghost from_gives = { λ numbers r. account_of r ≡ read_account numbers.now };

    fn from(numbers: &[u32; NUMBERS]) -> Account {
        let kept = tallies_at(numbers, KEPT);
        let broken = tallies_at(numbers, BROKEN);
        Account {
            count: numbers[0],
            last: numbers[1] as State,
            what: numbers[2],
            moment: numbers[3],
            rule: numbers[4],
            kept,
            broken,
        }
    }
}

// The 515 numbers of an account.
impl From<&Account> for [u32; NUMBERS] {
    ghost from_gives = { λ account r. r ≡ write_account (account_of account.now) };

    fn from(account: &Account) -> [u32; NUMBERS] {
        let mut numbers = [0u32; NUMBERS];
        numbers[0] = account.count;
        numbers[1] = account.last as u32;
        numbers[2] = account.what;
        numbers[3] = account.moment;
        numbers[4] = account.rule;
        put_tallies(&mut numbers, KEPT, &account.kept);
        put_tallies(&mut numbers, BROKEN, &account.broken);
        numbers
    }
}
