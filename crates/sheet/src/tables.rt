// The list types and functions of a sheet, in the order of their numbers.
ghost use Rattle.rules.specs.Types.{ElementsLower};
ghost use Rattle.sheet.specs.Growth.{SmallAmounts, SmallRemainders};

use arrayvec::ArrayVec;
use records::NodeType;
use rules::{FUNCTIONS, FunctionEntry, TYPES};

// An element type has a lower number than its list type, so a walk from a type to its element types ends. What a node or a call
// gives back has two bytes, so a balance grows slowly.
#[derive(Drop)]
pub(crate) struct Tables {
    pub(crate) types: ArrayVec<NodeType, TYPES>,
    pub(crate) functions: ArrayVec<FunctionEntry, FUNCTIONS>,
    ghost lower: { ElementsLower types.items },
    ghost small_amounts: { SmallAmounts types.items },
    ghost small_remainders: { SmallRemainders functions.items },
}
