// An account carried on by a piece of a log: its five numbers and its tallies apart, and joined again.
ghost use Rattle.std.specs.Prelude.{◌≡◌, length};
ghost use Rattle.audit_account.specs.Book.{book_carried, Carriable};
ghost use Rattle.audit_follow.specs.Heads.{with_tallies};
ghost use Rattle.audit.specs.Given.{account_of};

use super::Account;
use audit_follow::{Head, TALLIES};
use ground::State;
use rules::Book;

// An account's five numbers.
impl From<&Account> for Head {
    ghost from_gives = { λ account r. with_tallies r account.now.kept account.now.broken ≡ account_of account.now };

    fn from(account: &Account) -> Head {
        Head {
            count: account.count,
            last: account.last,
            what: account.what,
            moment: account.moment,
            rule: account.rule,
        }
    }
}

// The five numbers and the tallies as one account.
fn joined(head: Head, kept: [u32; TALLIES], broken: [u32; TALLIES]) -> Account
    ensures { account_of result ≡ with_tallies head kept broken }
{
    Account {
        count: head.count,
        last: head.last,
        what: head.what,
        moment: head.moment,
        rule: head.rule,
        kept,
        broken,
    }
}

// The account carried on by these states.
pub fn carry(book: &Book, account: Account, states: &[State]) -> Account
    requires { Carriable (account_of account) (length states.now) }
    ensures { account_of result ≡ book_carried book.now (account_of account) states.now }
{
    let mut kept = account.kept;
    let mut broken = account.broken;
    let head = Head::from(&account);
    let last = audit_follow::follow(book, states, head, &mut kept, &mut broken);
    joined(last, kept, broken)
}
