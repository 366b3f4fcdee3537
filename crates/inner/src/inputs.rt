// What is entered: what it brings along, and the arguments of a function that it becomes.
ghost use Rattle.std.specs.Prelude.{◌≡◌, ◌≤◌, map, reverse, take, sum_by};
ghost use Rattle.inner.specs.Meant.{input_stack};
ghost use Rattle.inner.specs.Serving.{greatest_price};
ghost use Rattle.plain.specs.Feeding.{same_numbers};
ghost use Rattle.standing.specs.Stepping.{as_slot, starting_words};

use crate::kept::Inner;
use records::Signature;
use rules::SLOTS;
use standing::Slot;

impl Inner {
    // What all entries bring along.
    pub fn brought(&self) -> u32
        requires { sum_by (λ x. x.potential) self.now.inputs.items ≤ greatest_price }
        ensures { result ≡ sum_by (λ x. x.potential) self.now.inputs.items }
    {
        self.inputs.iter().map(|input| input.potential).sum()
    }

    // Whether the entries, first pushed first, are the parameters by their type numbers.
    pub fn are_parameters(&self, signature: Signature) -> bool
        ensures { result ≡ same_numbers (map (λ x. x.of) (reverse (input_stack self.now))) (take signature.count signature.params) }
    {
        let params = signature.parameters();
        self.inputs.len() == params.len()
            && self
                .inputs
                .iter()
                .zip(params)
                .all(|(input, of)| input.of == *of)
    }

    // The entries, first pushed first, in slots from 0 on.
    pub fn argument_slots(&self) -> [Slot; SLOTS]
        ensures { result ≡ starting_words (map (λ x. as_slot x.of x.word) (reverse (input_stack self.now))) }
    {
        let mut slots = [Slot::Vacant; SLOTS];
        // Written by index: behind a zip over iter_mut a proof knows how many slots there are, and not what was written.
        for (k, input) in self.inputs.iter().enumerate() {
            slots[k] = Slot::of_type(input.of, input.word);
        }
        slots
    }
}
