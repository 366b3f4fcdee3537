// What the service means on values, with no cells: values, the plain reading of a run, and the service over its calls; the law of
// amounts, that what was paid at funding suffices for the whole run; and the functional reading, that a run computes the value of
// a function. The definitions stand in specs/. Rests on records and rules.
#![tactic(auto)]

mod functional;
mod law;
mod service;

pub use functional::{
    a_function_has_one_value, a_result_is_the_functions_value, a_run_ends_with_the_functions_value,
    a_sheet_has_its_bodies, a_value_is_found_by_a_run, pulls_answer_the_value,
    the_doubling_sheet_doubles,
};
pub use law::{
    a_funded_run_never_lacks_a_cell, every_step_has_what_it_needs, frames_stand_at_steps,
    only_depth_stops_a_run,
};
pub use service::{
    a_refused_call_alters_nothing, a_run_leaves_what_was_promised, a_service_stays_in_order,
    small_services_answer_as_listed,
};
