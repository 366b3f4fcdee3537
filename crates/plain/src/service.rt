// What holds of the whole plain service, as contracts.
ghost use Rattle.plain.specs.Examples.{ExamplesHold};
ghost use Rattle.plain.specs.Order.{AServiceStaysInOrder, CallsKeepWhatIsPaid};
ghost use Rattle.plain.specs.Promise.{ARunLeavesWhatWasPromised};
ghost use Rattle.plain.specs.Refusals.{ARefusedCallAltersNothing};

// Whatever calls are made in whatever order: the sheet is lawful, the entries have their types, a run is funded, a result is a
// list of Numbers, and all live nodes fit the capacity. Every call in a run keeps the same cells spare, to its end.
pub fn a_service_stays_in_order()
    ensures order { AServiceStaysInOrder }
    ensures spare { CallsKeepWhatIsPaid }
{}

// When a run has just ended, whatever calls were made before its funding and while it was on: the result is a list of Numbers,
// and of what was free at the funding no more than the price is gone, while what the result brings along and the remainder of
// function 0 are free beside it.
pub fn a_run_leaves_what_was_promised()
    ensures { ARunLeavesWhatWasPromised }
{}

// A refused call alters nothing, unless it is an advance that has made steps before its refusal.
pub fn a_refused_call_alters_nothing()
    ensures { ARefusedCallAltersNothing }
{}

// The definitions of the service, computed on a list of small services.
pub fn small_services_answer_as_listed()
    ensures { ExamplesHold }
{}
