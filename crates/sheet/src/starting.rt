// The account with which a body starts.
ghost use Rattle.std.specs.Prelude.{◌≡◌, ◌<◌};
ghost use Rattle.rules.specs.Accounts.{opening as start_of};

use crate::types::slot_of;
use records::Signature;
use rules::{Account, SLOTS, Slot};

// The parameters stand in slots 0 upward, and the entry amount is the balance.
pub(crate) fn opening(function: &Signature) -> Account
    ensures answer { result ≡ start_of function.now }
    ensures small { result.balance < 65536 }
{
    let mut slots = [Slot::Vacant; SLOTS];
    // Written by index: behind a zip over `iter_mut` a proof knows how many slots there are and not what was written, and
    // `array::from_fn` was tried and did not prove.
    for (i, t) in function.parameters().iter().enumerate() {
        slots[i] = slot_of(*t);
    }
    Account {
        slots,
        balance: function.entry as u32,
    }
}
