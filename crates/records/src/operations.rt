// What an Arith does with its two numbers.
ghost use Rattle.records.specs.Operations.{Decodes};

#[derive(Clone, Copy, Debug, PartialEq, Eq)]
pub enum Operation {
    Sum,
    Difference,
    Product,
    Less,
    Equal,
}

// A byte that stands for no operation.
#[derive(Clone, Copy, Debug, PartialEq, Eq)]
pub struct UnknownOperation(pub u8);

impl TryFrom<u8> for Operation {
    type Error = UnknownOperation;

    ghost try_from_gives = { Decodes };

    fn try_from(op: u8) -> Result<Self, UnknownOperation> {
        match op {
            0 => Ok(Operation::Sum),
            1 => Ok(Operation::Difference),
            2 => Ok(Operation::Product),
            3 => Ok(Operation::Less),
            4 => Ok(Operation::Equal),
            _ => Err(UnknownOperation(op)),
        }
    }
}
