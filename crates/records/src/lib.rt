// The records of a label sheet: what they are, how one is cut from the sheet's bytes, and the first round of the check,
// which cuts them all. Rests on nothing but std.
#![tactic(auto)]

mod faults;
mod kinds;
mod layouts;
mod operations;
mod reading;
mod rounds;
mod sizes;

pub use faults::{Cause, Fault};
pub use kinds::{NodeType, Record, Signature, Step, UNUSED};
pub use operations::{Operation, UnknownOperation};
pub use reading::Reader;
pub use rounds::{SHEET_LIMIT, Tally, first_round};
