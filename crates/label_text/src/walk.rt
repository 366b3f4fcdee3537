// The records of a sheet one by one, as far as they can be cut.
ghost use Rattle.label_text.specs.Entries.{Few, Short, entries_in, left};
ghost use Rattle.std.specs.Prelude.{◌≡◌};
ghost use Rattle.std.specs.Iterator.{YieldsFirst, item_count};

use crate::entries::{Entry, Numbering};
use crate::words::Numbered;
use records::{Reader, SHEET_LIMIT};

#[derive(Drop)]
pub(crate) struct Walk<'a> {
    reader: Reader<'a>,
    numbering: Numbering,
    ghost few: { Few reader numbering },
    ghost short: { Short reader },
}

impl<'a> Walk<'a> {
    // A sheet that is too long is not cut.
    pub(crate) fn new(bytes: &'a [u8]) -> Self
        ensures { left result.reader result.numbering ≡ entries_in bytes.now }
    {
        let cut = if bytes.len() > SHEET_LIMIT {
            &bytes[..0]
        } else {
            bytes
        };
        Walk {
            reader: Reader::new(cut),
            numbering: Numbering::default(),
        }
    }
}

impl Iterator for Walk<'_> {
    type Item = Entry;

    ghost next_gives = { YieldsFirst (λ w. left w.reader w.numbering) };

    ghost remaining = { item_count (λ w. left w.reader w.numbering) };

    fn next(&mut self) -> Option<Entry> {
        let at = self.reader.place();
        let Ok(Some(what)) = self.reader.next() else {
            return None;
        };
        let number = self.numbering.number(&what);
        let item = Numbered { number, what };
        Some(Entry { at, item })
    }
}
