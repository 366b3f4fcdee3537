// An advance: steps until so many are made, the run ends or a step is refused.
ghost use Rattle.engine.specs.Answers.{advance_answer};
ghost use Rattle.engine.specs.Rows.{Advanced};
ghost use Rattle.engine.specs.Service.{CallMade, InService};
ghost use Rattle.plain.specs.Calls.{advance as advance_by};

use crate::engine::Engine;
use crate::faults::EngineFault;
use cells::store::CellStore;
use inner::State;

impl<S: CellStore> Engine<S> {
    // At most n steps. Answers the steps made and the state.
    pub fn advance(&mut self, n: u32) -> Result<(u32, State), EngineFault>
        requires in_service { InService S.Meaning self.old }
        ensures made { CallMade S.Meaning self.old (advance_by n) (advance_answer result) self.new }
        ensures row { Advanced S.Meaning self.old n result self.new }
    {
        if self.inner.state != State::Running {
            return Err(EngineFault::AdvanceExcluded);
        }
        // steps are counted, and their number is answered
        for made in 0..n {
            let state = self.step().map_err(|_| EngineFault::TooDeepAfter(made))?;
            if state == State::Done {
                return Ok((made + 1, State::Done));
            }
        }
        Ok((n, State::Running))
    }
}
