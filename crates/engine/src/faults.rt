// Why the engine refuses a call. The store's fault goes whole into the feed's, and the feed's into the engine's.
ghost use Rattle.engine.specs.declared.faults.EngineFault.TheVariants.{Feed, Unlawful};
ghost use Rattle.engine.specs.declared.faults.FeedFault.TheVariants.{Store};
ghost use Rattle.std.specs.Prelude.{◌≡◌};

use cells::fault::StoreFault;
use records::Fault;

#[derive(Clone, Copy, PartialEq, Eq, Debug)]
pub enum FeedFault {
    // the record is empty, of unknown kind or of the wrong length
    BadRecord,
    // the type is unknown or no list
    BadType,
    TooFewEntries,
    // an entry has another type number
    OtherType,
    TooManyEntries,
    // no cell is free
    Store(StoreFault),
}

// Two each for the state and for depth, since an advance also tells how many steps it made. What is of feed waits for that call.
#[derive(Clone, Copy, PartialEq, Eq, Debug)]
pub enum EngineFault {
    // the state excludes the call, or the advance
    Excluded,
    AdvanceExcluded,
    // the sheet breaks a rule
    Unlawful(Fault),
    Feed(FeedFault),
    // the entries are not the parameters of function 0
    OtherParameters,
    // fewer cells are free than this price
    TooDear(u32),
    // a Call with 64 frames, in a step, and in an advance after so many steps
    TooDeep,
    TooDeepAfter(u32),
}

// The conversions are written out, since a derived `From` says nothing of what it gives, and contracts promise that a fault comes
// whole.
impl From<StoreFault> for FeedFault {
    ghost from_gives = { λ fault r. r ≡ Store fault };

    fn from(fault: StoreFault) -> Self {
        FeedFault::Store(fault)
    }
}

impl From<FeedFault> for EngineFault {
    ghost from_gives = { λ fault r. r ≡ Feed fault };

    fn from(fault: FeedFault) -> Self {
        EngineFault::Feed(fault)
    }
}

impl From<Fault> for EngineFault {
    ghost from_gives = { λ fault r. r ≡ Unlawful fault };

    fn from(fault: Fault) -> Self {
        EngineFault::Unlawful(fault)
    }
}
