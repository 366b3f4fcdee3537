// Where an engine is Open: behind a load, at the end of a result, and behind giving up.
ghost use Rattle.std.specs.Prelude.{◌≡◌};
ghost use Rattle.inner.specs.Changes.{abandoned, opened, opened_with};
ghost use Rattle.inner.specs.Meant.{admits_load};

use crate::kept::{Inner, State};
use sheet::Sheet;

impl State {
    // Whether it admits a load.
    pub fn admits_load(self) -> bool
        ensures { result ≡ admits_load self }
    {
        matches!(self, State::Bare | State::Open)
    }
}

impl Inner {
    // Open with nothing entered; the sheet stays.
    pub fn open(&mut self)
        ensures { self.new ≡ opened self.old }
    {
        self.state = State::Open;
        self.inputs.clear();
    }

    // Open with this sheet and nothing entered.
    pub fn open_with(&mut self, sheet: Sheet)
        ensures { self.new ≡ opened_with self.old sheet }
    {
        self.sheet = Some(sheet);
        self.open();
    }

    // Open with nothing entered, unless it is Bare.
    pub fn abandon(&mut self)
        ensures { self.new ≡ abandoned self.old }
    {
        if self.state != State::Bare {
            self.open();
        }
    }
}
