// The law of amounts, as contracts.
ghost use Rattle.plain.specs.Advancing.{OnlyDepthStopsARun};
ghost use Rattle.plain.specs.Law.{AFundedRunNeverLacksACell, FundingPays, StepsKeepWhatIsPaid};
ghost use Rattle.plain.specs.Places.{FramesStandAtSteps};
ghost use Rattle.plain.specs.Ready.{EveryStepHasWhatItNeeds};

// For a sheet that the rules accept: an accepted fund makes a run that is paid for, with the free cells less the price spare;
// every step keeps it so, with the same cells spare; and so it is after any number of steps. No step is stuck, one that makes a
// node finds a free cell, only a Call that would open a 65th frame is refused, and the end leaves what the sheet promises.
pub fn a_funded_run_never_lacks_a_cell()
    ensures funding { FundingPays }
    ensures steps { StepsKeepWhatIsPaid }
    ensures runs { AFundedRunNeverLacksACell }
{}

// In a funded run the next offset of every frame is one where the sheet's derivation continues: a step stands there.
pub fn frames_stand_at_steps()
    ensures { FramesStandAtSteps }
{}

// Depth alone stops a funded run: a step is refused if and only if it would open a 65th frame, and an advance if and only if it
// meets such a step before all its steps are made.
pub fn only_depth_stops_a_run()
    ensures { OnlyDepthStopsARun }
{}

// A step of a funded run finds in its slots what its kind needs, and the cells that it takes; no amount of the rules is named.
pub fn every_step_has_what_it_needs()
    ensures { EveryStepHasWhatItNeeds }
{}
