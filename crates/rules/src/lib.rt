// What a label sheet has to be: its types, its form, the rules for its amounts, and the verdict of the check on any bytes.
// The definitions stand in specs/; here are the types that the verdict speaks of, and the theorem. Rests on records.
#![tactic(auto)]

mod accounts;
mod findings;
mod functions;
mod law;
mod limits;

pub use accounts::{Account, Slot, Waiting};
pub use findings::Finding;
pub use functions::FunctionEntry;
pub use law::check_accepts_what_the_rules_derive;
pub use limits::{FUNCTIONS, SLOTS, TYPES, WAITING};
