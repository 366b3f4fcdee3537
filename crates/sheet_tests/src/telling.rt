// What an accepted sheet tells of itself.
use records::{NodeType, Step};
use std::test::Fail;

// Each item of a list is doubled: two types, and one function of 30 bytes of body. Spelled here too, since what stands in the
// tests of another crate is not seen here.
const DOUBLING: &[u8] =
    b"\x11\0\0\x01\x11\0\0\0\x20\x01\x01\xFF\xFF\xFF\x02\0\0\0\0\x41\0\x01\x02\0\x1E\x32\0\x02\x40\0\x35\x03\0\x02\xFF\xFF\xFF\x33\x03\x02\x01\x03\x33\x03\x02\x01\x03\x40\x03";

#[test]
fn the_bytes_are_kept(rt: HostRuntime) -> Result<(), Fail> {
    let sheet = sheet::check(DOUBLING)?;
    assert_eq!(rt; sheet.bytes(), DOUBLING);
    Ok(())
}

#[test]
fn types_are_told(rt: HostRuntime) -> Result<(), Fail> {
    let sheet = sheet::check(DOUBLING)?;
    let items = NodeType {
        element: 0,
        amount: 1,
    };
    assert_eq!(rt; sheet.type_count(), 2);
    assert_eq!(rt; sheet.list_type(0), None);
    assert_eq!(rt; sheet.list_type(1), Some(items));
    assert_eq!(rt; sheet.list_type(3), None);
    assert_eq!(rt; sheet.types().first(), Some(&items));
    Ok(())
}

#[test]
fn functions_are_told(rt: HostRuntime) -> Result<(), Fail> {
    let sheet = sheet::check(DOUBLING)?;
    assert_eq!(rt; sheet.function_count(), 1);
    assert!(rt; sheet.function(1).is_none());
    let entry = sheet.function(0).ok_or("no function 0")?;
    assert_eq!(rt; entry.body, 19);
    assert_eq!(rt; entry.signature.count, 1);
    assert_eq!(rt; entry.signature.result, 2);
    assert_eq!(rt; sheet.functions().len(), 1);
    Ok(())
}

// The body of function 0 begins with a Match, and a step is decoded there with no other answer.
#[test]
fn the_body_begins_with_a_match(rt: HostRuntime) -> Result<(), Fail> {
    let sheet = sheet::check(DOUBLING)?;
    let opens = Step::Match {
        a: 0,
        h: 1,
        l: 2,
        second: 30,
    };
    assert_eq!(rt; sheet.step_at(19), opens);
    Ok(())
}
