// The state of an engine, and all that it keeps beside its store, in fixed memory: a run must never stop for memory.
use arrayvec::ArrayVec;
use sheet::Sheet;
use standing::{Frame, Input, Slot};

// The entries that the input stack has at most.
pub const INPUTS: usize = 16;

// The frames that are suspended at most: with the newest, 64 are under way.
pub const CALLERS: usize = 63;

#[derive(Clone, Copy, PartialEq, Eq, Debug, Default)]
pub enum State {
    #[default]
    Bare,
    Open,
    Running,
    Done,
}

// Of inputs and callers, the newest is the last. Inputs matter while the engine is Open, frames while it is Running, and the
// result while it is Done. The state stands beside them, and is no enum that has them: that would be no plainer to match on, and
// would move the sheet and the frames, some 18 KB, whenever it changes.
#[derive(Drop, Default)]
pub struct Inner {
    pub state: State,
    pub sheet: Option<Sheet>,
    pub inputs: ArrayVec<Input, INPUTS>,
    // the newest frame
    pub frame: Frame,
    // those beneath it, which are suspended
    pub callers: ArrayVec<Frame, CALLERS>,
    pub result: Slot,
}
