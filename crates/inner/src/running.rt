// The frames of a run: the first is opened, a call opens one, and a return closes one.
ghost use Rattle.std.specs.Prelude.{◌≡◌, ◌<◌, ◌≤◌, length};
ghost use Rattle.inner.specs.Changes.{started};
ghost use Rattle.inner.specs.Kinds.{called, handed_back};
ghost use Rattle.inner.specs.Meant.{caller_limit};
ghost use Rattle.rules.specs.Branches.{Padded};
ghost use Rattle.rules.specs.Limits.{parameter_limit, slot_count};
ghost use Rattle.standing.specs.Stepping.{slot_in, word_frame};

use crate::kept::{Inner, State};
use rules::{FunctionEntry, SLOTS};
use standing::{Frame, Slot};

impl Inner {
    // Running, with one frame that starts at this offset with these slots.
    pub fn start(&mut self, body: usize, slots: [Slot; SLOTS])
        ensures { self.new ≡ started self.old (word_frame body slots 0) }
    {
        self.frame = Frame {
            next: body,
            slots,
            awaiting: 0,
        };
        self.callers.clear();
        self.state = State::Running;
    }

    // The caller is suspended, and the callee starts with the arguments in its slots from 0 on.
    pub fn call(&mut self, d: u8, function: FunctionEntry, slots: [u8; 4], next: usize)
        requires few { length self.old.callers.items < caller_limit }
        requires parameters { function.signature.count ≤ parameter_limit }
        requires slots { Padded slot_count function.signature.count slots }
        ensures { self.new ≡ called self.old function slots d next }
    {
        let mut arguments = [Slot::Vacant; SLOTS];
        let count = function.signature.count as usize;
        // Written by index, as in argument_slots: behind a zip over iter_mut a proof does not know what was written.
        for (k, slot) in slots[..count].iter().enumerate() {
            arguments[k] = self.used(*slot);
        }
        self.callers.push(Frame { next, ..self.frame });
        self.frame = Frame {
            next: function.body,
            slots: arguments,
            awaiting: d,
        };
    }

    // The value goes to the caller that awaits it, or ends the run.
    pub fn hand_back(&mut self, a: u8)
        requires slot { a < slot_count }
        requires awaiting { 0 < length self.old.callers.items → self.old.frame.awaiting < slot_count }
        ensures { self.new ≡ handed_back self.old (slot_in self.old.frame.slots a) }
    {
        let value = self.frame.slots[a as usize];
        let awaiting = self.frame.awaiting;
        let Some(mut caller) = self.callers.pop() else {
            self.state = State::Done;
            self.result = value;
            return;
        };
        caller.slots[awaiting as usize] = value;
        self.frame = caller;
    }
}
