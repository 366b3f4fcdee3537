// A record of each kind, cut from the bytes that write it and one byte more.
use records::{NodeType, Reader, Record, Signature, Step};
use std::process::Abort;
use std::test::Fail;

// The record at the front of the bytes, which has all of them but the last.
fn cut(rt: &impl Abort, bytes: &[u8]) -> Result<Record, Fail> {
    let mut reader = Reader::new(bytes);
    assert_eq!(rt; reader.place(), 0);
    let record = reader.next()?.ok_or("no record")?;
    assert_eq!(rt; reader.place(), record.size());
    assert_eq!(rt; bytes.len().checked_sub(reader.place()), Some(1));
    Ok(record)
}

#[test]
fn list_type(rt: HostRuntime) -> Result<(), Fail> {
    let record = cut(&rt, &[0x11, 2, 0x12, 0x34, 0])?;
    let wanted = NodeType {
        element: 2,
        amount: 0x1234,
    };
    assert_eq!(rt; record, Record::ListType(wanted));
    Ok(())
}

#[test]
fn function(rt: HostRuntime) -> Result<(), Fail> {
    let record = cut(&rt, &[0x20, 2, 1, 0, 0xFF, 0xFF, 3, 1, 2, 0xFF, 0xFE, 0])?;
    let wanted = Signature {
        count: 2,
        params: [1, 0, 0xFF, 0xFF],
        result: 3,
        entry: 0x0102,
        remainder: 0xFFFE,
    };
    assert_eq!(rt; record, Record::Function(wanted));
    Ok(())
}

#[test]
fn steps_that_bind(rt: HostRuntime) -> Result<(), Fail> {
    let record = cut(&rt, &[0x30, 15, 0x12, 0x34, 0x56, 0x78, 0])?;
    let wanted = Step::Const {
        d: 15,
        number: 0x12345678,
    };
    assert_eq!(rt; record, Record::Step(wanted));
    let record = cut(&rt, &[0x31, 1, 4, 2, 3, 0])?;
    let wanted = Step::Arith {
        d: 1,
        op: 4,
        a: 2,
        b: 3,
    };
    assert_eq!(rt; record, Record::Step(wanted));
    let record = cut(&rt, &[0x32, 1, 2, 0])?;
    assert_eq!(rt; record, Record::Step(Step::Empty { d: 1, t: 2 }));
    let record = cut(&rt, &[0x33, 1, 2, 3, 4, 0])?;
    let wanted = Step::Cons {
        d: 1,
        t: 2,
        h: 3,
        l: 4,
    };
    assert_eq!(rt; record, Record::Step(wanted));
    Ok(())
}

#[test]
fn call(rt: HostRuntime) -> Result<(), Fail> {
    let record = cut(&rt, &[0x35, 3, 7, 2, 1, 0xFF, 0xFE, 0])?;
    let wanted = Step::Call {
        d: 3,
        function: 7,
        slots: [2, 1, 0xFF, 0xFE],
    };
    assert_eq!(rt; record, Record::Step(wanted));
    Ok(())
}

#[test]
fn steps_that_end_or_fork(rt: HostRuntime) -> Result<(), Fail> {
    let record = cut(&rt, &[0x40, 9, 0])?;
    assert_eq!(rt; record, Record::Step(Step::Return { a: 9 }));
    let record = cut(&rt, &[0x41, 1, 2, 3, 0x0F, 0xFF, 0])?;
    let wanted = Step::Match {
        a: 1,
        h: 2,
        l: 3,
        second: 0x0FFF,
    };
    assert_eq!(rt; record, Record::Step(wanted));
    let record = cut(&rt, &[0x43, 5, 0x01, 0x00, 0])?;
    assert_eq!(rt; record, Record::Step(Step::If { a: 5, second: 256 }));
    Ok(())
}
