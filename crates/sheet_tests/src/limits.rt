// The limits of types, functions and bytes, with sheets made in a loop.
use crate::refusals::refusal;
use std::alloc::Global;
use std::test::Fail;

const TYPE: &[u8] = b"\x11\0\0\x01";

const UNKNOWN_ELEMENT: &[u8] = b"\x11\x28\0\x01";
// a function without parameters that answers an empty list
const FUNCTION: &[u8] = b"\x20\0\xFF\xFF\xFF\xFF\x01\0\0\0\0\x32\0\x01\x40\0";

const UNKNOWN_PARAMETER: &[u8] = b"\x20\x01\x09\xFF\xFF\xFF\x01\0\0\0\0";

const SIGNATURE: &[u8] = b"\x20\0\xFF\xFF\xFF\xFF\x01\0\0\0\0";

const NUMBER_IN_0: &[u8] = b"\x30\0\0\0\0\0";

const DOUBLE_0: &[u8] = b"\x31\0\0\0\0";

const ANSWER_EMPTY: &[u8] = b"\x32\x01\x01\x40\x01";

// `first` so many times, and then `last`.
fn repeated(heap: Global, first: &[u8], times: usize, last: &[u8]) -> Result<Vec<u8>, Fail> {
    let mut bytes = Vec::new(heap);
    // a count of times, and no index
    for _ in 0..times {
        bytes.extend_from_slice(first)?;
    }
    bytes.extend_from_slice(last)?;
    Ok(bytes)
}

#[test]
fn thirty_two_types(rt: HostRuntime) -> Result<(), Fail> {
    let most = repeated(rt.alloc(), TYPE, 32, FUNCTION)?;
    assert_eq!(rt; refusal(most.as_slice()), None);
    let more = repeated(rt.alloc(), TYPE, 33, FUNCTION)?;
    assert_eq!(rt; refusal(more.as_slice()), Some((22, 128)));
    // and not 23, which its element would be
    let unknown = repeated(rt.alloc(), TYPE, 32, UNKNOWN_ELEMENT)?;
    assert_eq!(rt; refusal(unknown.as_slice()), Some((22, 128)));
    Ok(())
}

#[test]
fn thirty_two_functions(rt: HostRuntime) -> Result<(), Fail> {
    let functions = repeated(rt.alloc(), FUNCTION, 32, &[])?;
    let most = repeated(rt.alloc(), TYPE, 1, functions.as_slice())?;
    assert_eq!(rt; refusal(most.as_slice()), None);
    let more = repeated(rt.alloc(), most.as_slice(), 1, FUNCTION)?;
    assert_eq!(rt; refusal(more.as_slice()), Some((22, 516)));
    // and not 24, which its parameter would be
    let unknown = repeated(rt.alloc(), most.as_slice(), 1, UNKNOWN_PARAMETER)?;
    assert_eq!(rt; refusal(unknown.as_slice()), Some((22, 516)));
    Ok(())
}

#[test]
fn bytes_at_most_4096(rt: HostRuntime) -> Result<(), Fail> {
    let head = repeated(rt.alloc(), TYPE, 1, SIGNATURE)?;
    let body = repeated(rt.alloc(), DOUBLE_0, 814, ANSWER_EMPTY)?;
    let start = repeated(rt.alloc(), head.as_slice(), 1, NUMBER_IN_0)?;
    let most = repeated(rt.alloc(), start.as_slice(), 1, body.as_slice())?;
    assert_eq!(rt; most.len(), 4096);
    assert_eq!(rt; refusal(most.as_slice()), None);
    // and not 12, which the byte that is too much would be
    let more = repeated(rt.alloc(), most.as_slice(), 1, &[0x40])?;
    assert_eq!(rt; refusal(more.as_slice()), Some((10, 0)));
    Ok(())
}
