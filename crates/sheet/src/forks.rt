// What the check finds of the steps that fork a branch.
ghost use Rattle.std.specs.Prelude.{◌≡◌, Ok, nat_lt};
ghost use Rattle.records.specs.declared.faults.Cause.TheVariants.{TooManyWaiting};
ghost use Rattle.records.specs.declared.kinds.Step.TheVariants.{If, Match};
ghost use Rattle.rules.specs.Limits.{waiting_limit};
ghost use Rattle.rules.specs.Tests.{need};
ghost use Rattle.sheet.specs.Branches.{finding_on};

use crate::accounts::AccountExt;
use crate::branch::Branch;
use crate::slot_numbers::SlotNumber;
use crate::types::slot_of;
use crate::uses::NUMBER;
use records::Cause;
use rules::{Finding, Slot, WAITING};

impl Branch<'_> {
    // Whether one more second branch may wait.
    fn check_room(&self) -> Result<(), Cause>
        ensures { result ≡ need TooManyWaiting (nat_lt self.now.waiting waiting_limit) (Ok tt) }
    {
        if self.waiting < WAITING {
            Ok(())
        } else {
            Err(Cause::TooManyWaiting)
        }
    }

    pub(crate) fn of_match(&self, a: u8, h: u8, l: u8, second: u16) -> Result<Finding, Cause>
        ensures { result ≡ finding_on self.now (Match a h l second) }
    {
        self.check_room()?;
        let a = SlotNumber::try_from(a)?;
        let h = SlotNumber::try_from(h)?;
        let l = SlotNumber::try_from(l)?;
        let mut first = self.account;
        let Slot::ListOf(t) = first.use_slot(a)? else {
            return Err(Cause::WrongType);
        };
        if h == l {
            return Err(Cause::BadBinding);
        }
        let list = self.tables.type_record(t);
        let mut later = first;
        later.bind(h, slot_of(list.element))?;
        later.bind(l, Slot::ListOf(t))?;
        later.balance += 1 + u32::from(list.amount);
        Ok(Finding::Forks {
            first,
            second,
            later,
        })
    }

    pub(crate) fn of_if(&self, a: u8, second: u16) -> Result<Finding, Cause>
        ensures { result ≡ finding_on self.now (If a second) }
    {
        self.check_room()?;
        let a = SlotNumber::try_from(a)?;
        let mut account = self.account;
        let tested = account.use_slot(a)?;
        self.check_fit(tested, NUMBER)?;
        Ok(Finding::Forks {
            first: account,
            second,
            later: account,
        })
    }
}
