// The first round of the check: the sheet is short enough, and its bytes are a row of whole records of known kinds.
ghost use Rattle.std.specs.Prelude.{◌≡◌, ◌+◌, ◌<◌};
ghost use Rattle.records.specs.FirstRound.{first_round, counted, records_in};
ghost use Rattle.records.specs.Sheets.{ReadInOneWay};

use crate::faults::{Cause, Fault};
use crate::kinds::Record;
use crate::reading::Reader;

// The most bytes that a sheet may have.
pub const SHEET_LIMIT: usize = 4096;

// How many records of each sort a sheet has.
#[derive(Clone, Copy, Debug, Default, PartialEq, Eq)]
pub struct Tally {
    pub types: usize,
    pub functions: usize,
    pub steps: usize,
}

impl Tally {
    fn count(&mut self, next: &Record)
        requires { records_in self.old < SHEET_LIMIT }
        ensures { self.new ≡ counted self.old next.now }
    {
        match next {
            Record::ListType(_) => self.types += 1,
            Record::Function(_) => self.functions += 1,
            Record::Step(_) => self.steps += 1,
        }
    }
}

// The sheet's records, counted by sort, or the first fault. Accepted bytes are the writing of exactly one row of records.
pub fn first_round(bytes: &[u8]) -> Result<Tally, Fault>
    ensures verdict { result ≡ first_round bytes.now }
    ensures sheet { ReadInOneWay bytes.now result }
{
    cut_all(bytes)
}

// The verdict alone; `first_round` adds what it means for the bytes, once for all its exits.
fn cut_all(bytes: &[u8]) -> Result<Tally, Fault>
    ensures { result ≡ first_round bytes.now }
{
    if bytes.len() > SHEET_LIMIT {
        return Err(Fault {
            cause: Cause::TooLong,
            place: 0,
        });
    }
    let mut reader = Reader::new(bytes);
    let mut tally = Tally::default();
    // no index is counted: the reader knows its place, and ? leaves at a fault
    while let Some(next) = reader.next()? {
        tally.count(&next);
    }
    Ok(tally)
}
