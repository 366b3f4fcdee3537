// What the check says of a sheet, in words: its tables where it is accepted, and the refusal with the record at its place
// where it is not. Rests on `sheet` and `label_text`.
#![tactic(auto)]

mod asking;
mod reports;
mod tables;

pub use label_text::Report;
pub use reports::report_on;
