// What an engine keeps beside its store, the moment of a service that this means, and the parts of a call that alter nothing else.
// The definitions stand in specs/. Rests on sheet and standing.
#![tactic(auto)]

mod arith;
mod inputs;
mod kept;
mod kinds;
mod open;
mod running;
mod sheets;

pub use kept::{CALLERS, INPUTS, Inner, State};
