// What the check says of a sheet, in words.
ghost use Rattle.check_text.specs.Reports.{Reported, accepted_text, refused_text};
ghost use Rattle.sheet.specs.Sheets.{sheet_tables};
ghost use Rattle.std.specs.Prelude.{◌≡◌, IfOk, string_bytes};

use crate::asking::Asking;
use crate::tables::{function_lines, type_lines};
use label_text::{Report, line_at, refusal_line};
use records::Fault;
use sheet::{Sheet, check};
use std::alloc::{AllocError, Global};

// The tables of an accepted sheet, or the refusal and the record at its place.
pub fn report_on(heap: Global, bytes: &[u8]) -> Result<Report, AllocError>
    ensures { IfOk result (Reported bytes.now) }
{
    match check(bytes) {
        Ok(sheet) => Ok(Report {
            text: accepted_text(heap, &sheet)?,
            accepted: true,
        }),
        Err(fault) => Ok(Report {
            text: refused_text(heap, bytes, &fault)?,
            accepted: false,
        }),
    }
}

fn accepted_text(heap: Global, sheet: &Sheet) -> Result<String, AllocError>
    ensures { IfOk result (λ s. string_bytes s ≡ accepted_text (sheet_tables sheet.now)) }
{
    let types = type_lines(sheet);
    let functions = function_lines(sheet);
    let asking = Asking(sheet);
    format!(in heap; "accepted\n{types}{functions}{asking}")
}

fn refused_text(heap: Global, bytes: &[u8], fault: &Fault) -> Result<String, AllocError>
    ensures { IfOk result (λ s. string_bytes s ≡ refused_text bytes.now fault.now) }
{
    let refusal = refusal_line(heap, fault)?;
    let line = line_at(heap, bytes, fault.place)?;
    format!(in heap; "{refusal}{line}")
}
