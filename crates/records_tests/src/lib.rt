// Examples for the crate `records`: each kind of record, each fault of the first round, the limit of a sheet's length, and
// the operations.
#![tactic(auto)]

#[cfg(test)]
mod faults;
#[cfg(test)]
mod kinds;
#[cfg(test)]
mod operations;
