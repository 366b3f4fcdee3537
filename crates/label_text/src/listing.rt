// The listing of a sheet: a line for each record at its offset, and a last line with the counts or the refusal.
ghost use Rattle.label_text.specs.Entries.{entries_in};
ghost use Rattle.label_text.specs.Listing.{Listed, count_line, last_line, line_in, refusal_line};
ghost use Rattle.std.specs.List.{find};
ghost use Rattle.std.specs.Prelude.{◌≡◌, ◌==◌, IfOk, Some, string_bytes};

use crate::entries::Entry;
use crate::report::Report;
use crate::walk::Walk;
use crate::words::Reason;
use records::{Fault, Tally, first_round};
use std::alloc::{AllocError, Global};
use std::fmt;
use std::fmt::Write;

// A sheet in words, and whether the first round accepts it: the name by which programs know it.
pub type Listing = Report;

// The records as far as the first round cuts them, and then what it says of the whole sheet.
pub fn list(heap: Global, bytes: &[u8]) -> Result<Listing, AllocError>
    ensures { IfOk result (Listed bytes.now) }
{
    let verdict = first_round(bytes);
    let last = LastLine {
        bytes: bytes.len(),
        verdict,
    };
    let mut text = String::new(heap);
    for entry in Walk::new(bytes) {
        write!(text, "{entry}")?;
    }
    write!(text, "{last}")?;
    Ok(Report {
        text,
        accepted: verdict.is_ok(),
    })
}

// The line of the listing for the record at a place; nothing where no record is cut there.
pub fn line_at(heap: Global, bytes: &[u8], place: usize) -> Result<String, AllocError>
    ensures { IfOk result (λ s. string_bytes s ≡ line_in bytes.now place) }
{
    match entry_at(bytes, place) {
        Some(entry) => format!(in heap; "{entry}"),
        None => Ok(String::new(heap)),
    }
}

fn entry_at(bytes: &[u8], place: usize) -> Option<Entry>
    ensures { result ≡ find (λ e. e.at == place) (entries_in bytes.now) }
{
    Walk::new(bytes).find(|entry| entry.at == place)
}

#[derive(Clone, Copy)]
struct LastLine {
    bytes: usize,
    verdict: Result<Tally, Fault>,
}

impl fmt::Display for LastLine {
    ghost output = { λ x. Some (last_line x.bytes x.verdict) };

    fn fmt<W: fmt::Write>(&self, f: &mut fmt::Formatter<W>) -> fmt::Result {
        let bytes = self.bytes;
        match self.verdict {
            Ok(tally) => write!(f, "{}", Counts { bytes, tally }),
            Err(fault) => write!(f, "{}", Refusal(fault)),
        }
    }
}

#[derive(Clone, Copy)]
struct Counts {
    bytes: usize,
    tally: Tally,
}

impl fmt::Display for Counts {
    ghost output = { λ x. Some (count_line x.bytes x.tally) };

    fn fmt<W: fmt::Write>(&self, f: &mut fmt::Formatter<W>) -> fmt::Result {
        let bytes = self.bytes;
        let Tally {
            types,
            functions,
            steps,
        } = self.tally;
        writeln!(
            f,
            "bytes {bytes}, types {types}, functions {functions}, steps {steps}"
        )
    }
}

// A refusal with its number, its place and its cause in words.
pub fn refusal_line(heap: Global, fault: &Fault) -> Result<String, AllocError>
    ensures { IfOk result (λ s. string_bytes s ≡ refusal_line fault.now) }
{
    format!(in heap; "{}", Refusal(*fault))
}

#[derive(Clone, Copy)]
struct Refusal(Fault);

impl fmt::Display for Refusal {
    ghost output = { λ x. Some (refusal_line x.0) };

    fn fmt<W: fmt::Write>(&self, f: &mut fmt::Formatter<W>) -> fmt::Result {
        let number = self.0.cause.number();
        let place = self.0.place;
        let cause = Reason(self.0.cause);
        writeln!(f, "refused {number} at {place}: {cause}")
    }
}
