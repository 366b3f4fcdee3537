// Funding: what is entered becomes the arguments of function 0, if the free cells pay for the run.
ghost use Rattle.engine.specs.Answers.{acceptance};
ghost use Rattle.engine.specs.Service.{CallMade, InService};
ghost use Rattle.plain.specs.Calls.{fund as begin_run};

use crate::engine::Engine;
use crate::faults::EngineFault;
use cells::store::CellStore;
use inner::State;

impl<S: CellStore> Engine<S> {
    // Begins a run of function 0 on what is entered.
    pub fn fund(&mut self) -> Result<(), EngineFault>
        requires in_service { InService S.Meaning self.old }
        ensures { CallMade S.Meaning self.old begin_run (acceptance result) self.new }
    {
        if self.inner.state != State::Open {
            return Err(EngineFault::Excluded);
        }
        let main = self.inner.function(0);
        if !self.inner.are_parameters(main.signature) {
            return Err(EngineFault::OtherParameters);
        }
        let price = self.price_now();
        if self.store.free() < price {
            return Err(EngineFault::TooDear(price));
        }
        let slots = self.inner.argument_slots();
        self.inner.start(main.body, slots);
        Ok(())
    }
}
