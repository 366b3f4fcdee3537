// What the check keeps along a branch: the type of each slot, by its number, and the balance.
use crate::limits::SLOTS;

#[derive(Clone, Copy, Debug, Default, PartialEq, Eq)]
pub enum Slot {
    #[default]
    Vacant,
    Number,
    // of the list type with this number
    ListOf(u8),
}

#[derive(Clone, Copy, Debug, Default, PartialEq, Eq)]
pub struct Account {
    pub slots: [Slot; SLOTS],
    pub balance: u32,
}

// A second branch that waits: the place of its Match or If, the offset at which that says it starts, and its account there.
#[derive(Clone, Copy, Debug, Default, PartialEq, Eq)]
pub struct Waiting {
    pub place: usize,
    pub second: u16,
    pub account: Account,
}
