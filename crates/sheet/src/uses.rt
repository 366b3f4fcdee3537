// Slots that are used where a type is wanted.
ghost use Rattle.std.specs.Prelude.{◌≡◌, Ok, OnOk};
ghost use Rattle.records.specs.declared.faults.Cause.TheVariants.{EmptySlot, WrongType};
ghost use Rattle.rules.specs.Accounts.{after_use, is_filled, slot_at, slot_covers};
ghost use Rattle.rules.specs.Tests.{both, need};
ghost use Rattle.sheet.specs.Held.{types_of};

use crate::accounts::AccountExt;
use crate::branch::Branch;
use crate::slot_numbers::SlotNumber;
use records::Cause;
use rules::{Account, Slot};

// The number of the type Number, as fields of the format have it.
pub(crate) const NUMBER: u8 = 0;

impl Branch<'_> {
    // Whether what a slot had fits the type numbered t.
    pub(crate) fn check_fit(&self, slot: Slot, t: u8) -> Result<(), Cause>
        ensures { result ≡ need WrongType (slot_covers (types_of self.now.tables.now) slot t) (Ok tt) }
    {
        if !self.tables.slot_covers(slot, t) {
            return Err(Cause::WrongType);
        }
        Ok(())
    }

    // Uses two slots, one after the other; each comes with the number of the type that is wanted. An empty one is found before
    // one of the wrong type. Not `pass` of the calls: that takes bytes that are known to be slots, and keeps the account apart.
    pub(crate) fn use_two(
        &self,
        account: &mut Account,
        first: (SlotNumber, u8),
        second: (SlotNumber, u8),
    ) -> Result<(), Cause>
        ensures answer { let ts = types_of self.now.tables.now in
            let a = slot_at account.old first.0.at in
            let b = slot_at (after_use account.old first.0.at) second.0.at in
            result ≡ need EmptySlot (both (is_filled a) (is_filled b)) (need WrongType (both (slot_covers ts a first.1) (slot_covers ts b second.1)) (Ok tt)) }
        ensures after { OnOk result (account.new ≡ after_use (after_use account.old first.0.at) second.0.at) }
    {
        let a = account.use_slot(first.0)?;
        let b = account.use_slot(second.0)?;
        self.check_fit(a, first.1)?;
        self.check_fit(b, second.1)
    }
}
