// The tables of cases, run.
use crate::cases::{ACCEPTED, AMOUNTS, BODIES, CUT_AND_TABLES, SLOTS, WAITING};
use label_text::parse_hex;
use std::alloc::Global;
use std::process::Abort;
use std::test::Fail;

// The number and the place of the refusal, where the sheet is refused.
pub(crate) fn refusal(bytes: &[u8]) -> Option<(u8, usize)> {
    let fault = sheet::check(bytes).err()?;
    Some((fault.cause.number(), fault.place))
}

fn all_as_said(rt: &impl Abort, heap: Global, table: &str) -> Result<(), Fail> {
    for line in table.lines() {
        let mut parts = line.split('|');
        let name = parts.next().ok_or("no name")?;
        let text = parts.next().ok_or("no sheet")?;
        let said = parts.next().ok_or("no answer")?;
        let sheet = parse_hex(heap, text.as_bytes()).map_err(|_| Fail::new("no hexadecimal text"))?;
        let (number, place) = refusal(sheet.as_slice()).unwrap_or((0, 0));
        let answered = format!(in heap; " {number} {place}")?;
        assert!(rt; answered.as_str() == said, "{name}");
    }
    Ok(())
}

#[test]
fn right_sheets_are_accepted(rt: HostRuntime) -> Result<(), Fail> {
    all_as_said(&rt, rt.alloc(), ACCEPTED)
}

#[test]
fn the_first_two_rounds_refuse(rt: HostRuntime) -> Result<(), Fail> {
    all_as_said(&rt, rt.alloc(), CUT_AND_TABLES)
}

#[test]
fn the_form_of_bodies_is_checked(rt: HostRuntime) -> Result<(), Fail> {
    all_as_said(&rt, rt.alloc(), BODIES)
}

#[test]
fn slots_are_checked(rt: HostRuntime) -> Result<(), Fail> {
    all_as_said(&rt, rt.alloc(), SLOTS)
}

#[test]
fn amounts_are_checked(rt: HostRuntime) -> Result<(), Fail> {
    all_as_said(&rt, rt.alloc(), AMOUNTS)
}

#[test]
fn at_most_sixteen_branches_wait(rt: HostRuntime) -> Result<(), Fail> {
    all_as_said(&rt, rt.alloc(), WAITING)
}
