// Cell stores: the one interface that all of them stand behind, the pool, and the quota over any of them.
#![tactic(auto)]

pub mod fault;
pub mod laws;
pub mod pool;
pub mod prepend;
pub mod quota;
pub mod store;
pub mod words;
