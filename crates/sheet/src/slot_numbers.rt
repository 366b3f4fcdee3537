// The fields of a step that name slots.
ghost use Rattle.std.specs.Prelude.{◌≡◌, ◌<◌, ◌≤◌, MatchResult};
ghost use Rattle.records.specs.declared.faults.Cause.TheVariants.{BadField};
ghost use Rattle.rules.specs.Limits.{slot_count};

use records::Cause;
use rules::SLOTS;

// The number of a slot: whoever has one need not test it again.
#[derive(Clone, Copy, Debug, PartialEq, Eq)]
pub(crate) struct SlotNumber {
    pub(crate) at: usize,
    ghost inside: { at < slot_count },
}

impl TryFrom<u8> for SlotNumber {
    type Error = Cause;

    ghost try_from_gives = { λ byte r. MatchResult r (λ slot. slot.at ≡ byte) (λ e. (e ≡ BadField) × (slot_count ≤ byte)) };

    fn try_from(byte: u8) -> Result<Self, Cause> {
        let at = usize::from(byte);
        if at >= SLOTS {
            return Err(Cause::BadField);
        }
        Ok(SlotNumber { at })
    }
}
