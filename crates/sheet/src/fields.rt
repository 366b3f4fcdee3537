// The fields of a step that name operations and list types.
ghost use Rattle.std.specs.Prelude.{◌≡◌, Ok, nat_lt};
ghost use Rattle.records.specs.declared.faults.Cause.TheVariants.{BadField};
ghost use Rattle.rules.specs.Limits.{op_count};
ghost use Rattle.rules.specs.Tests.{is_list_type, need};
ghost use Rattle.rules.specs.Types.{type_record};
ghost use Rattle.sheet.specs.Held.{types_of};

use crate::branch::Branch;
use records::{Cause, NodeType, Operation};

// Whether the byte stands for an operation. Which one makes no difference: each takes two Numbers and gives one.
pub(crate) fn check_operation(op: u8) -> Result<(), Cause>
    ensures { result ≡ need BadField (nat_lt op op_count) (Ok tt) }
{
    let Ok(_) = Operation::try_from(op) else {
        return Err(Cause::BadField);
    };
    Ok(())
}

impl Branch<'_> {
    // The list type that the field names.
    pub(crate) fn list_type(&self, t: u8) -> Result<NodeType, Cause>
        ensures { let ts = types_of self.now.tables.now in result ≡ need BadField (is_list_type ts t) (Ok (type_record ts t)) }
    {
        self.tables.list_type(t).ok_or(Cause::BadField)
    }
}
