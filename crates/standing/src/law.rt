// The theorems about what words and cells stand for, as contracts.
ghost use Rattle.standing.specs.Calls.{CallsKeepStanding, HeldAreTheLiveNodes};
ghost use Rattle.standing.specs.Ready.{AStepFindsWhatItNeeds};
ghost use Rattle.standing.specs.Services.{ServicesAnswerAlike};
ghost use Rattle.standing.specs.Law.{ACellIsFreeWhereANodeIsMade, HeldAreTheNodesOfAResult, HeldAreTheNodesOfARun, StepsKeepStanding};

// In a funded run, what a step does to frames on words and to the cells of a store stands for what the plain step does to frames
// on values, whichever unheld number a take answers; the held cells are as many as the nodes of the run, or of its result; and a
// step that makes a node finds a free cell.
pub fn words_stand_for_the_run()
    ensures steps { StepsKeepStanding }
    ensures run { HeldAreTheNodesOfARun }
    ensures result { HeldAreTheNodesOfAResult }
    ensures room { ACellIsFreeWhereANodeIsMade }
{}

// Every call, questions and refusals among them: from a moment that stands for a sound state of the plain service, whatever the
// call may do on words is what it does to the plain service. The answer is the same, and what follows stands for the state that
// follows. The held cells are always as many as the nodes of the live values.
pub fn every_call_keeps_standing()
    ensures calls { CallsKeepStanding }
    ensures held { HeldAreTheLiveNodes }
{}

// A whole service, from Bare with no cell held: whatever calls are made, each answer is the plain service's, and what is kept
// behind them stands for its state.
pub fn services_answer_as_the_plain_service()
    ensures { ServicesAnswerAlike }
{}

// A step of a funded run finds on words all that it needs, with no test: its record, slots in their ranges, a free cell if it makes
// a node, a held cell if it takes one apart, and the slot of its caller.
pub fn a_step_finds_what_it_needs()
    ensures { AStepFindsWhatItNeeds }
{}
