// Slots as values: the word and the type number in one, what a use leaves, and a word as a slot of its type.
ghost use Rattle.standing.specs.Stepping.{as_slot, left_slot, slot_type, slot_word};
ghost use Rattle.std.specs.Prelude.{◌≡◌};

use crate::frames::Slot;

impl Slot {
    // A word as a slot of the type with this number.
    pub fn of_type(of: u8, word: u32) -> Slot
        ensures { result ≡ as_slot of word }
    {
        if of == 0 {
            Slot::Number(word)
        } else {
            Slot::ListOf { word, of }
        }
    }

    // The word in it; 0 if it is vacant, as its definition has it. A funded run asks no vacant slot.
    pub fn word(self) -> u32
        ensures { result ≡ slot_word self }
    {
        match self {
            Slot::Vacant => 0,
            Slot::Number(n) => n,
            Slot::ListOf { word, .. } => word,
        }
    }

    // The type number of what it has; 0 if it is vacant. One match apart from that of the word: the two answer different numbers.
    pub fn type_number(self) -> u8
        ensures { result ≡ slot_type self }
    {
        match self {
            Slot::Vacant | Slot::Number(_) => 0,
            Slot::ListOf { of, .. } => of,
        }
    }

    // What a use leaves in it: a list goes, a number stays.
    pub fn left(self) -> Slot
        ensures { result ≡ left_slot self }
    {
        match self {
            Slot::Vacant | Slot::ListOf { .. } => Slot::Vacant,
            Slot::Number(n) => Slot::Number(n),
        }
    }
}
