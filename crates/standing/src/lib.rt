// What the words of an engine and the cells of a store stand for: values, slots, frames, input and result of the plain service.
// The definitions stand in specs/; here are the types that they speak of, the methods of a slot, and the theorems. Rests on cells
// and plain.
#![tactic(auto)]

mod frames;
mod law;
mod slots;

pub use frames::{Frame, Input, Slot};
pub use law::{
    a_step_finds_what_it_needs, every_call_keeps_standing, services_answer_as_the_plain_service,
    words_stand_for_the_run,
};
