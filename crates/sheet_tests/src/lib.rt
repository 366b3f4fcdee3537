// Tests of the check of a sheet: tables of sheets, the limits, and what an accepted sheet tells. Rests on records,
// sheet and label_text.
#![tactic(auto)]

#[cfg(test)]
mod cases;
#[cfg(test)]
mod limits;
#[cfg(test)]
mod refusals;
#[cfg(test)]
mod telling;
