// The free list: a store in cells that the caller lends.
#![tactic(auto)]

pub mod lent;
pub mod list;
