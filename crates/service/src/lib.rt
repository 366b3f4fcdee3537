// The calls of a whole service of an engine over any store, and the answers to them, as values. Rests on engine.
#![tactic(auto)]

mod calls;

pub use calls::{Answer, Call, Reply};
