// What text spells which bytes, and where a text that spells none goes wrong.
use label_text::{HexFault, fault_words, parse_hex};
use std::test::Fail;

#[test]
fn digits_spaces_and_comments(rt: HostRuntime) -> Result<(), Fail> {
    let heap = rt.alloc();
    let spelled: [(&str, &[u8]); 4] = [
        ("", &[]),
        ("00 7f\t80\r\nFfaB", &[0x00, 0x7F, 0x80, 0xFF, 0xAB]),
        ("# zz is no byte\n11#22\n33", &[0x11, 0x33]),
        ("11 # the last line has no end", &[0x11]),
    ];
    for (text, bytes) in spelled {
        assert_eq!(rt; parse_hex(heap, text.as_bytes())?.as_slice(), bytes);
    }
    Ok(())
}

#[test]
fn faults_have_a_line_and_a_column(rt: HostRuntime) -> Result<(), Fail> {
    let heap = rt.alloc();
    let faulty = [
        ("g", "line 1, column 1: this is no hexadecimal digit"),
        (
            "11 22\n  33 x4",
            "line 2, column 6: this is no hexadecimal digit",
        ),
        (
            "1",
            "line 1, column 2: the second digit of a byte is missing",
        ),
        (
            "11\n2 2",
            "line 2, column 2: the second digit of a byte is missing",
        ),
        (
            "1#1",
            "line 1, column 2: the second digit of a byte is missing",
        ),
    ];
    for (text, words) in faulty {
        let Err(HexFault::Text(fault)) = parse_hex(heap, text.as_bytes()) else {
            return Err(Fail::new("no fault of the text"));
        };
        assert_eq!(rt; fault_words(heap, &fault)?.as_str(), words);
    }
    Ok(())
}
