// What a cell holds.

/// The three words of a cell. A node of a list keeps its element and the rest of the list in them; the third is for nodes
/// that need one more. All are 0 by default.
#[derive(Clone, Copy, PartialEq, Eq, Debug, Default)]
pub struct Words {
    pub element: u32,
    pub tail: u32,
    pub third: u32,
}
