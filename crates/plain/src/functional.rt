// The functional reading, as contracts: what a run computes is the value of a function, in which frames and offsets do not occur.
ghost use Rattle.plain.specs.Doubling.{TheDoublingSheetDoubles};
ghost use Rattle.plain.specs.Functional.{AFunctionHasOneValue, ARunEndsWithTheFunctionsValue, ASheetHasItsBodies, AValueIsFoundByARun};
ghost use Rattle.plain.specs.Results.{AResultIsTheFunctionsValue, PullsAnswerTheValue};

// The functions of a sheet that the rules accept have bodies as trees, one each, and the sheet's bytes say which.
pub fn a_sheet_has_its_bodies()
    ensures { ASheetHasItsBodies }
{}

// A function of a sheet has at most one value at the same arguments, however deep calls may nest; what it is within some depth,
// it is within any greater one.
pub fn a_function_has_one_value()
    ensures { AFunctionHasOneValue }
{}

// For a sheet that the rules accept: a run that ends, ends with the value of function 0 at its arguments, and in that value calls
// nest at most 63 deep, as the 64 frames allow.
pub fn a_run_ends_with_the_functions_value()
    ensures { ARunEndsWithTheFunctionsValue }
{}

// For a sheet that the rules accept: where function 0 has a value at its arguments, with calls nested at most 63 deep, its run
// ends with that value after some number of steps, none of which is refused.
pub fn a_value_is_found_by_a_run()
    ensures { AValueIsFoundByARun }
{}

// When a run has just ended, whatever calls were made before its funding and while it was on: the result is the value of function
// 0 at what was fed, first pushed first, and from then on pulls answer its numbers one by one and then the end.
pub fn a_result_is_the_functions_value()
    ensures { AResultIsTheFunctionsValue }
{}

// Pulls from any list of Numbers answer its numbers one by one and then the end, which leaves the sheet open with nothing fed.
pub fn pulls_answer_the_value()
    ensures { PullsAnswerTheValue }
{}

// The doubling sheet, as an example: it has one body, and on every list of Numbers its function gives each of them twice.
pub fn the_doubling_sheet_doubles()
    ensures { TheDoublingSheetDoubles }
{}
