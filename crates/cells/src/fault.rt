// How a store refuses.

/// A take that found no room. The layer code, 1 to 255, says which layer of a pile of stores refused.
// A number and no enum: the codes are an open set, since each store, also one of another firm, names its own.
#[derive(Clone, Copy, PartialEq, Eq, Debug)]
pub struct StoreFault {
    pub code: u8,
}
