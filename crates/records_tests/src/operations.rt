// The bytes that stand for an operation, and those that stand for none.
use records::{Operation, UnknownOperation};

#[test]
fn an_operation_stands_behind_each_byte_below_5(rt: HostRuntime) {
    let wanted = [
        Operation::Sum,
        Operation::Difference,
        Operation::Product,
        Operation::Less,
        Operation::Equal,
    ];
    for (byte, operation) in (0u8..).zip(wanted) {
        assert_eq!(rt; Operation::try_from(byte), Ok(operation));
    }
    for byte in 5..=u8::MAX {
        assert_eq!(rt; Operation::try_from(byte), Err(UnknownOperation(byte)));
    }
}
