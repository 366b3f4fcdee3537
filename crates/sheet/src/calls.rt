// What the check finds of a Call.
ghost use Rattle.std.specs.Prelude.{◌≡◌, Ok, true, take};
ghost use Rattle.records.specs.declared.faults.Cause.TheVariants.{EmptySlot, WrongType};
ghost use Rattle.records.specs.declared.kinds.Step.TheVariants.{Call};
ghost use Rattle.rules.specs.Accounts.{after_uses, all_cover, all_filled};
ghost use Rattle.rules.specs.Limits.{slot_count};
ghost use Rattle.rules.specs.Tests.{need, padded as all_padded};
ghost use Rattle.sheet.specs.Branches.{finding_on};
ghost use Rattle.sheet.specs.Held.{types_of};

use crate::accounts::AccountExt;
use crate::branch::Branch;
use crate::slot_numbers::SlotNumber;
use crate::types::{padded, slot_of};
use records::{Cause, Signature};
use rules::{Account, Finding, SLOTS};

impl Branch<'_> {
    // Uses a call's slots for the parameters, one after the other, and answers the account behind them. An empty slot is found
    // before one of the wrong type, wherever they stand.
    #[tactic(auto, using(rules::proofs::Numbered::padded_count))]
    fn pass(&self, callee: &Signature, slots: &[u8; 4]) -> Result<Account, Cause>
        requires right { all_padded slot_count callee.now.count slots.now ≡ true }
        ensures { let c = self.now.account in
            let is = take callee.now.count slots.now in
            let ps = take callee.now.count callee.now.params in
            result ≡ need EmptySlot (all_filled c is) (need WrongType (all_cover (types_of self.now.tables.now) c is ps) (Ok (after_uses c is))) }
    {
        let mut account = self.account;
        // a flag beside the account: an empty slot behind it is found first
        let mut covering = true;
        let used = &slots[..usize::from(callee.count)];
        for (i, t) in used.iter().zip(callee.parameters()) {
            // no test: the caller has tested all four at once
            let number = SlotNumber {
                at: usize::from(*i),
            };
            let slot = account.use_slot(number)?;
            covering &= self.tables.slot_covers(slot, *t);
        }
        if covering {
            Ok(account)
        } else {
            Err(Cause::WrongType)
        }
    }

    #[tactic(auto, using(crate::proofs::Balances::uses_keep_balance))]
    pub(crate) fn of_call(&self, d: u8, function: u8, slots: &[u8; 4]) -> Result<Finding, Cause>
        ensures { result ≡ finding_on self.now (Call d function slots.now) }
    {
        let d = SlotNumber::try_from(d)?;
        let entry = self.tables.function(function).ok_or(Cause::BadField)?;
        let callee = entry.signature;
        if !padded(SLOTS as u8, callee.count, slots) {
            return Err(Cause::BadField);
        }
        let mut account = self.pass(&callee, slots)?;
        account.bind(d, slot_of(callee.result))?;
        account.pay(u32::from(callee.entry))?;
        account.balance += u32::from(callee.remainder);
        Ok(Finding::Onward(account))
    }
}
