// Loading a sheet, and giving up.
ghost use Rattle.engine.specs.Answers.{acceptance};
ghost use Rattle.engine.specs.Service.{CallMade, InService};
ghost use Rattle.plain.specs.Calls.{abandon as give_up, accepted, load as load_of};

use crate::engine::Engine;
use crate::faults::EngineFault;
use cells::store::CellStore;
use sheet::check;

impl<S: CellStore> Engine<S> {
    // Checks a sheet and keeps a copy of it, with no cell held and nothing entered.
    pub fn load(&mut self, bytes: &[u8]) -> Result<(), EngineFault>
        requires in_service { InService S.Meaning self.old }
        ensures { CallMade S.Meaning self.old (load_of bytes.now) (acceptance result) self.new }
    {
        if !self.inner.state.admits_load() {
            return Err(EngineFault::Excluded);
        }
        let sheet = check(bytes)?;
        self.store.clear();
        self.inner.open_with(sheet);
        Ok(())
    }

    // Drops input, run and result; the sheet stays.
    pub fn abandon(&mut self)
        requires in_service { InService S.Meaning self.old }
        ensures { CallMade S.Meaning self.old give_up accepted self.new }
    {
        self.store.clear();
        self.inner.abandon();
    }
}
