// What an Arith computes.
ghost use Rattle.plain.specs.Reading.{computed as outcome_of};
ghost use Rattle.records.specs.Operations.{op_of};
ghost use Rattle.std.specs.Prelude.{◌≡◌};

use records::Operation;

// Sum, difference and product modulo 2^32; 1 or 0 for less and for equal.
pub(crate) fn computed(operation: Operation, a: u32, b: u32) -> u32
    ensures { result ≡ outcome_of (op_of operation) a b }
{
    match operation {
        Operation::Sum => a.wrapping_add(b),
        Operation::Difference => a.wrapping_sub(b),
        Operation::Product => a.wrapping_mul(b),
        Operation::Less => u32::from(a < b),
        Operation::Equal => u32::from(a == b),
    }
}
