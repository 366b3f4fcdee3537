// A branch of a body, as far as the check has come.
ghost use Rattle.std.specs.Prelude.{◌<◌};
ghost use Rattle.sheet.specs.Growth.{balance_limit};

use crate::tables::Tables;
use records::Signature;
use rules::Account;

// It stands in a body of `function`; `waiting` second branches wait, and `account` is its own.
#[derive(Clone, Copy)]
pub(crate) struct Branch<'a> {
    pub(crate) tables: &'a Tables,
    pub(crate) function: &'a Signature,
    pub(crate) waiting: usize,
    pub(crate) account: Account,
    ghost bounded: { account.balance < balance_limit },
}
