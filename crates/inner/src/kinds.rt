// The kinds of steps that alter the newest frame alone, and what they are made of: slots are used and bound. A Const and an Empty
// bind a slot, no more. Each asks that its slots are below the count: a step's fields are bare bytes, and that they are in range is
// known of the step and not of a byte, so a type of slot numbers would have to be made anew at each use. The slot that is bound and
// the offset behind the step go together only here.
ghost use Rattle.std.specs.Prelude.{◌≡◌, ◌<◌, slice_set};
ghost use Rattle.inner.specs.Changes.{with_frame, with_slots};
ghost use Rattle.inner.specs.Kinds.{arith_frame, if_frame, onward};
ghost use Rattle.rules.specs.Limits.{op_count, slot_count};
ghost use Rattle.standing.specs.Stepping.{slot_in, used_words};

use crate::arith::computed;
use crate::kept::Inner;
use records::Operation;
use standing::Slot;

impl Inner {
    // Uses slot a of the newest frame and answers what it had.
    pub fn used(&mut self, a: u8) -> Slot
        requires slot { a < slot_count }
        ensures slot { result ≡ slot_in self.old.frame.slots a }
        ensures after { self.new ≡ with_slots self.old (used_words self.old.frame.slots a) }
    {
        let slot = self.frame.slots[a as usize];
        self.frame.slots[a as usize] = slot.left();
        slot
    }

    // Binds slot d of the newest frame, which goes on at this offset.
    pub fn bind(&mut self, d: u8, slot: Slot, next: usize)
        requires slot { d < slot_count }
        ensures { self.new ≡ with_frame self.old (onward self.old.frame next (slice_set self.old.frame.slots d slot)) }
    {
        self.frame.slots[d as usize] = slot;
        self.frame.next = next;
    }

    pub fn arith(&mut self, d: u8, op: u8, a: u8, b: u8, next: usize)
        requires slots { (d < slot_count) × (a < slot_count) × (b < slot_count) }
        requires operation { op < op_count }
        ensures { self.new ≡ with_frame self.old (arith_frame self.old.frame d op a b next) }
    {
        let Ok(operation) = Operation::try_from(op) else {
            unreachable!()
        };
        let x = self.used(a).word();
        let y = self.used(b).word();
        self.bind(d, Slot::Number(computed(operation, x, y)), next);
    }

    // Goes to the first branch unless the number is 0.
    pub fn branch(&mut self, a: u8, first: usize, second: u16)
        requires slot { a < slot_count }
        ensures { self.new ≡ with_frame self.old (if_frame self.old.frame a first second) }
    {
        let number = self.used(a).word();
        self.frame.next = if number == 0 { second as usize } else { first };
    }
}
