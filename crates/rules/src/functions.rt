// The functions of a sheet.
use records::Signature;

// What a function's record says, and the offset at which its body begins.
#[derive(Clone, Copy, Debug, Default, PartialEq, Eq)]
pub struct FunctionEntry {
    pub signature: Signature,
    pub body: usize,
}
