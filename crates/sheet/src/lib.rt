// The check of a label sheet, and the sheet that has passed it. Rests on records and rules.
#![tactic(auto)]

mod accounts;
mod branch;
mod calls;
mod checking;
mod fields;
mod findings;
mod forks;
mod gathering;
mod lookups;
mod passed;
mod rounds;
mod slot_numbers;
mod starting;
mod steps;
mod tables;
mod types;
mod uses;

pub use checking::check;
pub use passed::Sheet;
