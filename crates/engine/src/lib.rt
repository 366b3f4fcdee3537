// The label engine over any cell store: its calls, each with its complete outcome. Rests on inner and cells.
#![tactic(auto)]

mod advancing;
mod asking;
mod engine;
mod faults;
mod funding;
mod loading;
mod nodes;
mod pulling;
mod stepping;

pub use engine::Engine;
pub use faults::{EngineFault, FeedFault};
