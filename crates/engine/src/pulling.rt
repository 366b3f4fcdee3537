// Pulling the numbers of a result.
ghost use Rattle.engine.specs.Answers.{pull_answer};
ghost use Rattle.engine.specs.Service.{CallMade, InService};
ghost use Rattle.plain.specs.Calls.{pull as next_number};

use crate::engine::Engine;
use crate::faults::EngineFault;
use crate::nodes::taken_apart;
use cells::store::CellStore;
use inner::State;
use standing::Slot;

impl<S: CellStore> Engine<S> {
    // The next number of the result, whose cell is given back; None at its end, and then the engine is Open with nothing entered.
    pub fn pull(&mut self) -> Result<Option<u32>, EngineFault>
        requires in_service { InService S.Meaning self.old }
        ensures { CallMade S.Meaning self.old next_number (pull_answer result) self.new }
    {
        if self.inner.state != State::Done {
            return Err(EngineFault::Excluded);
        }
        let list = self.inner.result;
        let word = list.word();
        if word == 0 {
            self.inner.open();
            return Ok(None);
        }
        let of = list.type_number();
        let node = taken_apart(&mut self.store, word);
        self.inner.result = Slot::ListOf {
            word: node.tail,
            of,
        };
        Ok(Some(node.element))
    }
}
