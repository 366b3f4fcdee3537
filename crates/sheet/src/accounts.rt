// What a step does to an account: slots are used and bound, and the balance pays.
ghost use Rattle.std.specs.Prelude.{◌≡◌, ◌-◌, Ok, OnOk, nat_le};
ghost use Rattle.records.specs.declared.faults.Cause.TheVariants.{BadBinding, BalanceTooSmall, EmptySlot};
ghost use Rattle.rules.specs.Accounts.{after_use, any_list, is_filled, may_bind, slot_at, with_balance, with_slot};
ghost use Rattle.rules.specs.Tests.{need};

use crate::slot_numbers::SlotNumber;
use records::Cause;
use rules::{Account, Slot};

// What the check does with an account, which is a type of rules.
pub(crate) trait AccountExt {
    fn use_slot(&mut self, i: SlotNumber) -> Result<Slot, Cause>;

    fn bind(&mut self, d: SlotNumber, slot: Slot) -> Result<(), Cause>;

    fn pay(&mut self, cost: u32) -> Result<(), Cause>;

    fn has_list(&self) -> bool;
}

impl AccountExt for Account {
    // Uses slot i, and answers what it had: a list leaves it, a Number stays.
    fn use_slot(&mut self, i: SlotNumber) -> Result<Slot, Cause>
        ensures answer { result ≡ need EmptySlot (is_filled (slot_at self.old i.at)) (Ok (slot_at self.old i.at)) }
        ensures after { OnOk result (self.new ≡ after_use self.old i.at) }
    {
        let slot = self.slots[i.at];
        self.slots[i.at] = match slot {
            Slot::Vacant => return Err(Cause::EmptySlot),
            Slot::Number => Slot::Number,
            Slot::ListOf(_) => Slot::Vacant,
        };
        Ok(slot)
    }

    // Binds slot d, unless it has a list.
    fn bind(&mut self, d: SlotNumber, slot: Slot) -> Result<(), Cause>
        ensures answer { result ≡ need BadBinding (may_bind self.old d.at) (Ok tt) }
        ensures after { OnOk result (self.new ≡ with_slot self.old d.at slot) }
    {
        if let Slot::ListOf(_) = self.slots[d.at] {
            return Err(Cause::BadBinding);
        }
        self.slots[d.at] = slot;
        Ok(())
    }

    // Takes the cost from the balance.
    fn pay(&mut self, cost: u32) -> Result<(), Cause>
        ensures answer { result ≡ need BalanceTooSmall (nat_le cost self.old.balance) (Ok tt) }
        ensures after { OnOk result (self.new ≡ with_balance self.old (self.old.balance - cost)) }
    {
        self.balance = self
            .balance
            .checked_sub(cost)
            .ok_or(Cause::BalanceTooSmall)?;
        Ok(())
    }

    // Whether some slot still has a list type.
    fn has_list(&self) -> bool
        ensures { result ≡ any_list self.now.slots }
    {
        self.slots
            .iter()
            .any(|slot| matches!(slot, Slot::ListOf(_)))
    }
}
