// What the check finds of one step that breaks no rule.
use crate::accounts::Account;

#[derive(Clone, Copy, Debug, PartialEq, Eq)]
pub enum Finding {
    // The branch goes on with this account.
    Onward(Account),
    // The first branch goes on behind the step, and the second is said to start at this offset.
    Forks {
        first: Account,
        second: u16,
        later: Account,
    },
    // The branch ends.
    Ends,
}
