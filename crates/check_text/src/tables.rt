// The tables of a sheet in words.
ghost use Rattle.check_text.specs.Reports.{function_line, function_lines, numbered_line, type_line, type_lines};
ghost use Rattle.check_text.specs.Said.{said_of};
ghost use Rattle.records.specs.declared.kinds.Record.{Record as AnyRecord};
ghost use Rattle.records.specs.declared.kinds.Record.TheVariants.{Function as OfFunction, ListType as OfType};
ghost use Rattle.rules.specs.Limits.{type_limit};
ghost use Rattle.sheet.specs.Sheets.{sheet_tables};
ghost use Rattle.std.specs.Prelude.{◌≡◌, ◌≤◌, Some, length};

use label_text::Numbered;
use records::{NodeType, Record};
use rules::FunctionEntry;
use sheet::Sheet;
use std::fmt;

// What stands in a table of a sheet. It is shown as the record that it comes from.
pub(crate) trait Entry {
    ghost record_of: { Self → AnyRecord };

    fn record(&self) -> Record
        ensures { result ≡ record_of self.now };
}

impl Entry for NodeType {
    ghost record_of = { λ node. OfType node };

    fn record(&self) -> Record {
        Record::ListType(*self)
    }
}

impl Entry for FunctionEntry {
    ghost record_of = { λ entry. OfFunction entry.signature };

    fn record(&self) -> Record {
        Record::Function(self.signature)
    }
}

// A line for each entry of a table. A sheet has no more types than this, and no more functions.
#[derive(Drop)]
pub(crate) struct Table<'a, T> {
    first: u8,
    entries: &'a [T],
    ghost few: { length entries.now ≤ type_limit },
}

impl<T: Entry> fmt::Display for Table<'_, T> {
    ghost output = { λ x. Some (said_of (λ n e. numbered_line n (T.record_of e)) x.first x.entries.now) };

    fn fmt<W: fmt::Write>(&self, f: &mut fmt::Formatter<W>) -> fmt::Result {
        for (i, entry) in self.entries.iter().enumerate() {
            let number = usize::from(self.first) + i;
            let what = entry.record();
            writeln!(f, "{}", Numbered { number, what })?;
        }
        Ok(())
    }
}

// The list types, numbered from 1.
pub(crate) fn type_lines(sheet: &Sheet) -> Table<'_, NodeType>
    ensures { said_of type_line result.first result.entries.now ≡ type_lines (sheet_tables sheet.now).types }
{
    Table {
        first: 1,
        entries: sheet.types(),
    }
}

// The functions, numbered from 0.
pub(crate) fn function_lines(sheet: &Sheet) -> Table<'_, FunctionEntry>
    ensures { said_of function_line result.first result.entries.now ≡ function_lines (sheet_tables sheet.now).functions }
{
    Table {
        first: 0,
        entries: sheet.functions(),
    }
}
