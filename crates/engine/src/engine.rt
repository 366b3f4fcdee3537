// The engine: one text over whichever store it holds.
ghost use Rattle.cells.specs.Cells.{empty};
ghost use Rattle.engine.specs.Service.{InService, StandsFor, capacity_of, cells_of};
ghost use Rattle.inner.specs.Meant.{moment};
ghost use Rattle.standing.specs.Moments.{bare};
ghost use Rattle.std.specs.Prelude.{◌≡◌};

use cells::store::{CellStore, Meaning};
use inner::Inner;

// A store, and what is kept beside it. Whole parts of a call that alter the latter alone are methods of Inner. Each call asks that
// the engine is in service, which making one gives and every call keeps. Its type does not say so: the bound that a ghost field
// needs would keep an engine over a quota from standing in a field of a struct that is generic over the store below.
#[derive(Drop)]
pub struct Engine<S> {
    pub(crate) store: S,
    pub(crate) inner: Inner,
}

impl<S: CellStore> Engine<S> {
    // An engine over a store, which it clears. It is Bare.
    pub fn new(mut store: S) -> Engine<S>
        requires { S.Meaning.ok store }
        ensures in_service { InService S.Meaning result }
        ensures stands { StandsFor S.Meaning result }
        ensures bare { moment result.inner ≡ bare }
        ensures cleared { cells_of S.Meaning result ≡ empty }
        ensures capacity { capacity_of S.Meaning result ≡ S.Meaning.capacity store }
    {
        store.clear();
        Engine {
            store,
            inner: Inner::default(),
        }
    }
}
