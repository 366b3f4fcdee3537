// What the first round accepts and refuses, with its counts and places.
use records::{Tally, first_round};
use std::process::Abort;

// Two type records, a function record and seven steps: the doubling sheet. The tests of other crates spell it too, since what
// stands in tests is seen in its own crate alone.
fn doubling() -> [u8; 49] {
    *b"\x11\x00\x00\x01\x11\x00\x00\x00\x20\x01\x01\xff\xff\xff\x02\x00\x00\x00\x00\x41\x00\x01\x02\x00\x1e\x32\x00\x02\x40\x00\x35\x03\x00\x02\xff\xff\xff\x33\x03\x02\x01\x03\x33\x03\x02\x01\x03\x40\x03"
}

fn refused(rt: &impl Abort, bytes: &[u8], number: u8, place: usize) {
    let verdict = first_round(bytes).map_err(|fault| (fault.cause.number(), fault.place));
    assert_eq!(rt; verdict, Err((number, place)));
}

fn accepted(rt: &impl Abort, bytes: &[u8], types: usize, functions: usize, steps: usize) {
    let tally = Tally {
        types,
        functions,
        steps,
    };
    assert_eq!(rt; first_round(bytes), Ok(tally));
}

#[test]
fn whole_sheets_are_counted(rt: HostRuntime) {
    accepted(&rt, &doubling(), 2, 1, 7);
    accepted(&rt, &[], 0, 0, 0);
}

#[test]
fn unknown_kinds_are_refused_at_their_offset(rt: HostRuntime) {
    refused(&rt, &[0x00], 11, 0);
    refused(&rt, &[0x11, 0, 0, 1, 0x12], 11, 4);
    refused(&rt, &[0x40, 0, 0x42, 0, 0, 0], 11, 2);
}

#[test]
fn a_record_cut_short_is_refused_at_its_offset(rt: HostRuntime) {
    let sheet = doubling();
    refused(&rt, &sheet[0..48], 12, 47);
    refused(&rt, &sheet[0..18], 12, 8);
    refused(&rt, &[0x41], 12, 0);
}

// Return records throughout, since their kind byte may also be their slot.
#[test]
fn a_sheet_has_at_most_4096_bytes(rt: HostRuntime) {
    let bytes = [0x40; 4097];
    accepted(&rt, &bytes[0..4096], 0, 0, 2048);
    refused(&rt, &bytes, 10, 0);
}
