// The questions.
ghost use Rattle.std.specs.Prelude.{◌≡◌};
ghost use Rattle.engine.specs.Service.{CallMade, InService};
ghost use Rattle.inner.specs.Meant.{moment, phase_of};
ghost use Rattle.plain.specs.Calls.{ask_free, ask_held, ask_price, ask_state, counted, in_phase};
ghost use Rattle.standing.specs.Serving.{price as price_at};

use crate::engine::Engine;
use cells::store::CellStore;
use inner::State;

impl<S: CellStore> Engine<S> {
    // The price of a run on what is entered, as a number, which funding compares.
    pub(crate) fn price_now(&self) -> u32
        requires in_service { InService S.Meaning self.now }
        ensures { result ≡ price_at (moment self.now.inner) }
    {
        if self.inner.state != State::Open {
            return 0;
        }
        let entry = self.inner.function(0).signature.entry;
        entry as u32 + self.inner.brought()
    }

    // The price of a run on what is entered; 0 unless the engine is Open.
    pub fn price(&self) -> u32
        requires in_service { InService S.Meaning self.now }
        ensures { CallMade S.Meaning self.now ask_price (counted result) self.now }
    {
        self.price_now()
    }

    // How many cells are free.
    pub fn free(&self) -> u32
        requires in_service { InService S.Meaning self.now }
        ensures { CallMade S.Meaning self.now ask_free (counted result) self.now }
    {
        self.store.free()
    }

    // How many cells are held.
    pub fn held(&self) -> u32
        requires in_service { InService S.Meaning self.now }
        ensures { CallMade S.Meaning self.now ask_held (counted result) self.now }
    {
        self.store.held()
    }

    pub fn state(&self) -> State
        requires in_service { InService S.Meaning self.now }
        ensures { CallMade S.Meaning self.now ask_state (in_phase (phase_of result)) self.now }
    {
        self.inner.state
    }
}
