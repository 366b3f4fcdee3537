// Examples for the crates `label_text` and `check_text`: hexadecimal text and its faults, whole listings, and reports.
#![tactic(auto)]

#[cfg(test)]
mod hexes;
#[cfg(test)]
mod listings;
#[cfg(test)]
mod reports;
