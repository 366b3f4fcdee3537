// What the program says of a sheet.

// The text, and whether the sheet is accepted. No Result, since there is a text in both cases, and it is printed alike.
#[derive(Debug, PartialEq, Eq, Drop)]
pub struct Report {
    pub text: String,
    pub accepted: bool,
}
