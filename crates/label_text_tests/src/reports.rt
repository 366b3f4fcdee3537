// What the check says of sheets: the tables of an accepted one, the refusal and the record at its place of others.
use check_text::report_on;
use std::test::Fail;

// Spelled here too, since what stands in the tests of another crate is not seen here.
const DOUBLING: [u8; 49] =
    *b"\x11\x00\x00\x01\x11\x00\x00\x00\x20\x01\x01\xff\xff\xff\x02\x00\x00\x00\x00\x41\x00\x01\x02\x00\x1e\x32\x00\x02\x40\x00\x35\x03\x00\x02\xff\xff\xff\x33\x03\x02\x01\x03\x33\x03\x02\x01\x03\x40\x03";

// The doubling sheet with another byte at a place.
fn doubling_but(place: usize, byte: u8) -> [u8; 49] {
    let mut sheet = DOUBLING;
    if let Some(at) = sheet.get_mut(place) {
        *at = byte;
    }
    sheet
}

#[test]
fn tables_of_an_accepted_sheet(rt: HostRuntime) -> Result<(), Fail> {
    let text = "accepted
list type 1, element 0, amount 1
list type 2, element 0, amount 0
function 0, count 1, parameters 1 - - -, result 2, entry 0, remainder 0
argument 0 of type 1 asks for each node, from the outermost list in: 1
";
    let report = report_on(rt.alloc(), &DOUBLING)?;
    assert_eq!(rt; (report.accepted, report.text.as_str()), (true, text));
    Ok(())
}

#[test]
fn a_refusal_and_the_record_at_its_place(rt: HostRuntime) -> Result<(), Fail> {
    let heap = rt.alloc();
    let poor = doubling_but(3, 0);
    let astray = doubling_but(24, 0x1F);
    let refusals: [(&[u8], &str); 4] = [
        (
            &poor,
            "refused 40 at 42: the balance is too small\n42: cons, d 3, t 2, h 1, l 3\n",
        ),
        (
            &astray,
            "refused 31 at 19: the second branch starts elsewhere\n19: match list, a 0, h 1, l 2, second 31\n",
        ),
        (
            &DOUBLING[..47],
            "refused 30 at 47: a step behind a body's end, or a body that is not finished\n",
        ),
        (&[], "refused 21 at 0: the sheet has no function\n"),
    ];
    for (sheet, text) in refusals {
        let report = report_on(heap, sheet)?;
        assert_eq!(rt; (report.accepted, report.text.as_str()), (false, text));
    }
    Ok(())
}
