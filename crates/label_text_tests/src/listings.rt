// Whole listings, with the counts or the refusal at their end.
use label_text::{Verb, list};
use std::test::Fail;

#[test]
fn counts_or_a_refusal_end_the_listing(rt: HostRuntime) -> Result<(), Fail> {
    let heap = rt.alloc();
    let listings: [(&[u8], bool, &str); 4] = [
        (&[], true, "bytes 0, types 0, functions 0, steps 0\n"),
        (
            &[0x40, 3, 0x12],
            false,
            "0: return, a 3\nrefused 11 at 2: no record has this kind\n",
        ),
        (
            &[0x32, 1, 2, 0x11, 0],
            false,
            "0: empty, d 1, t 2\nrefused 12 at 3: the sheet ends inside this record\n",
        ),
        (
            &[0x40; 4097],
            false,
            "refused 10 at 0: the sheet is longer than 4096 bytes\n",
        ),
    ];
    for (sheet, accepted, text) in listings {
        let listing = list(heap, sheet)?;
        assert_eq!(rt; (listing.accepted, listing.text.as_str()), (accepted, text));
    }
    Ok(())
}

#[test]
fn types_and_functions_are_numbered(rt: HostRuntime) -> Result<(), Fail> {
    let sheet = [
        0x11, 0, 0, 1, 0x11, 1, 1, 0, 0x20, 0, 0xFF, 0xFF, 0xFF, 0xFF, 1, 0, 2, 0, 3, 0x20, 4, 0,
        1, 2, 0, 2, 0, 0, 0, 0,
    ];
    let text = "0: list type 1, element 0, amount 1
4: list type 2, element 1, amount 256
8: function 0, count 0, parameters - - - -, result 1, entry 2, remainder 3
19: function 1, count 4, parameters 0 1 2 0, result 2, entry 0, remainder 0
bytes 30, types 2, functions 2, steps 0
";
    let listing = list(rt.alloc(), &sheet)?;
    assert_eq!(rt; (listing.accepted, listing.text.as_str()), (true, text));
    Ok(())
}

#[test]
fn each_step_in_words(rt: HostRuntime) -> Result<(), Fail> {
    let sheet = [
        0x30, 1, 0, 0, 1, 0, 0x31, 2, 3, 4, 5, 0x33, 1, 2, 3, 4, 0x35, 1, 0, 2, 3, 0xFF, 0xFF,
        0x41, 0, 1, 2, 1, 0, 0x43, 7, 0, 9,
    ];
    let text = "0: const, d 1, number 256
6: arith, d 2, op 3, a 4, b 5
11: cons, d 1, t 2, h 3, l 4
16: call, d 1, function 0, slots 2 3 - -
23: match list, a 0, h 1, l 2, second 256
29: if, a 7, second 9
bytes 33, types 0, functions 0, steps 6
";
    let listing = list(rt.alloc(), &sheet)?;
    assert_eq!(rt; (listing.accepted, listing.text.as_str()), (true, text));
    Ok(())
}

#[test]
fn verbs_go_by_their_names(rt: HostRuntime) {
    assert_eq!(rt; Verb::named("list"), Some(Verb::List));
    assert_eq!(rt; Verb::named("List"), None);
    assert_eq!(rt; Verb::named(""), None);
}
