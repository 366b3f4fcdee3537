// Slots, frames and input entries as an engine keeps them, on words.
use rules::SLOTS;

// A cell does not say whether its element is a number or a list, so a list goes with its type number. The word 0 is the empty
// list, any other the number of the first node's cell: a word and no Option, since that is what a cell holds. The check has an
// enum of the same three cases with no words in it; one generic over what a case carries would only hide which one is meant.
#[derive(Clone, Copy, PartialEq, Eq, Debug, Default)]
pub enum Slot {
    #[default]
    Vacant,
    Number(u32),
    ListOf { word: u32, of: u8 },
}

// A function under way: the offset of its next step, its slots, and the slot of its caller that awaits its result. The first frame
// has 0 there, which nothing reads: whether a caller awaits is said by the callers that are kept, so it is no Option.
#[derive(Clone, Copy, PartialEq, Eq, Debug, Default)]
pub struct Frame {
    pub next: usize,
    pub slots: [Slot; SLOTS],
    pub awaiting: u8,
}

// An entry of the input stack: a value by its word, with its type number and what it brings along.
#[derive(Clone, Copy, PartialEq, Eq, Debug, Default)]
pub struct Input {
    pub word: u32,
    pub of: u8,
    pub potential: u32,
}
