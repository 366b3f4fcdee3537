// A record of a sheet with its offset and its number, and its line in the listing.
ghost use Rattle.label_text.specs.Listing.{number_behind, numbered, record_line};
ghost use Rattle.std.specs.Prelude.{◌≡◌, ◌+◌, ◌<◌, Some};

use crate::words::Numbered;
use records::Record;
use std::fmt;

// How many types and functions have come so far, by which the next one is numbered.
#[derive(Clone, Copy, Default)]
pub(crate) struct Numbering {
    pub(crate) types: usize,
    pub(crate) functions: usize,
}

impl Numbering {
    // The number of this record: types count from 1, functions from 0.
    pub(crate) fn number(&mut self, record: &Record) -> usize
        requires { self.old.types + self.old.functions < 4096 }
        ensures answer { result ≡ number_behind self.old «record».now }
        ensures after { self.new ≡ numbered self.old «record».now }
    {
        match record {
            Record::ListType(_) => {
                self.types += 1;
                self.types
            }
            Record::Function(_) => {
                self.functions += 1;
                self.functions - 1
            }
            // 0 for a step, which is printed without one; no Option, since `record_words` takes a number for any record.
            Record::Step(_) => 0,
        }
    }
}

#[derive(Clone, Copy)]
pub(crate) struct Entry {
    pub(crate) at: usize,
    pub(crate) item: Numbered<Record>,
}

impl fmt::Display for Entry {
    ghost output = { λ e. Some (record_line e.at e.item.number e.item.what) };

    fn fmt<W: fmt::Write>(&self, f: &mut fmt::Formatter<W>) -> fmt::Result {
        let at = self.at;
        let item = self.item;
        writeln!(f, "{at}: {item}")
    }
}
