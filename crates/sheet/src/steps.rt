// What the check finds of the steps behind which a branch goes on, but for Call, and of Return.
ghost use Rattle.std.specs.Prelude.{◌≡◌};
ghost use Rattle.records.specs.declared.kinds.Step.TheVariants.{Arith, Cons, Const, Empty, Return};
ghost use Rattle.sheet.specs.Branches.{finding_on};

use crate::accounts::AccountExt;
use crate::branch::Branch;
use crate::fields::check_operation;
use crate::slot_numbers::SlotNumber;
use crate::uses::NUMBER;
use records::Cause;
use rules::{Finding, Slot};

impl Branch<'_> {
    pub(crate) fn of_const(&self, d: u8, number: u32) -> Result<Finding, Cause>
        ensures { result ≡ finding_on self.now (Const d number) }
    {
        let d = SlotNumber::try_from(d)?;
        let mut account = self.account;
        account.bind(d, Slot::Number)?;
        Ok(Finding::Onward(account))
    }

    pub(crate) fn of_arith(&self, d: u8, op: u8, a: u8, b: u8) -> Result<Finding, Cause>
        ensures { result ≡ finding_on self.now (Arith d op a b) }
    {
        let d = SlotNumber::try_from(d)?;
        check_operation(op)?;
        let a = SlotNumber::try_from(a)?;
        let b = SlotNumber::try_from(b)?;
        let mut account = self.account;
        self.use_two(&mut account, (a, NUMBER), (b, NUMBER))?;
        account.bind(d, Slot::Number)?;
        Ok(Finding::Onward(account))
    }

    pub(crate) fn of_empty(&self, d: u8, t: u8) -> Result<Finding, Cause>
        ensures { result ≡ finding_on self.now (Empty d t) }
    {
        let d = SlotNumber::try_from(d)?;
        self.list_type(t)?;
        let mut account = self.account;
        account.bind(d, Slot::ListOf(t))?;
        Ok(Finding::Onward(account))
    }

    pub(crate) fn of_cons(&self, d: u8, t: u8, h: u8, l: u8) -> Result<Finding, Cause>
        ensures { result ≡ finding_on self.now (Cons d t h l) }
    {
        let d = SlotNumber::try_from(d)?;
        let list = self.list_type(t)?;
        let h = SlotNumber::try_from(h)?;
        let l = SlotNumber::try_from(l)?;
        let mut account = self.account;
        self.use_two(&mut account, (h, list.element), (l, t))?;
        account.bind(d, Slot::ListOf(t))?;
        account.pay(1 + u32::from(list.amount))?;
        Ok(Finding::Onward(account))
    }

    pub(crate) fn of_return(&self, a: u8) -> Result<Finding, Cause>
        ensures { result ≡ finding_on self.now (Return a) }
    {
        let a = SlotNumber::try_from(a)?;
        let mut account = self.account;
        let result = account.use_slot(a)?;
        self.check_fit(result, self.function.result)?;
        if account.has_list() {
            return Err(Cause::ListLeft);
        }
        account.pay(u32::from(self.function.remainder))?;
        Ok(Finding::Ends)
    }
}
