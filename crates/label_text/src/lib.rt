// Text in and out of the label program: sheets as hexadecimal text, and records, counts and refusals in words. Rests on
// `records`.
#![tactic(auto)]

mod commands;
mod entries;
mod hexes;
mod listing;
mod report;
mod walk;
mod words;

pub use commands::{Verb, fault_words};
pub use hexes::{HexFault, Slip, Spot, TextFault, parse_hex};
pub use listing::{Listing, line_at, list, refusal_line};
pub use report::Report;
pub use words::{Numbered, record_words};
