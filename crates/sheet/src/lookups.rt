// What a sheet that has passed the check tells: its bytes, its tables, and the step at an offset.
ghost use Rattle.records.specs.declared.kinds.Record.TheVariants.{Step as AStep};
ghost use Rattle.rules.specs.Programs.{fetch};
ghost use Rattle.rules.specs.Reach.{StepStands};
ghost use Rattle.sheet.specs.Sheets.{bytes_of, function_at, list_type_at, sheet_tables};
ghost use Rattle.std.specs.Prelude.{◌≡◌, length, Some};

use crate::passed::Sheet;
use records::{NodeType, Reader, Record, Step};
use rules::FunctionEntry;

impl Sheet {
    // The bytes that were checked.
    pub fn bytes(&self) -> &[u8]
        ensures { result.now ≡ bytes_of self.now }
    {
        self.bytes.as_slice()
    }

    // Its list types, in the order of their numbers, which begin with 1.
    pub fn types(&self) -> &[NodeType]
        ensures { result.now ≡ (sheet_tables self.now).types }
    {
        self.tables.types.as_slice()
    }

    // How many list types it has; they are numbered from 1.
    pub fn type_count(&self) -> usize
        ensures { result ≡ length (sheet_tables self.now).types }
    {
        self.tables.types.len()
    }

    // The list type with this number; None for 0, which is Number, and for a number that no type has.
    pub fn list_type(&self, t: u8) -> Option<NodeType>
        ensures { result ≡ list_type_at (sheet_tables self.now).types t }
    {
        self.tables.list_type(t)
    }

    // Its functions, in the order of their numbers, which begin with 0.
    pub fn functions(&self) -> &[FunctionEntry]
        ensures { result.now ≡ (sheet_tables self.now).functions }
    {
        self.tables.functions.as_slice()
    }

    // How many functions it has; they are numbered from 0.
    pub fn function_count(&self) -> usize
        ensures { result ≡ length (sheet_tables self.now).functions }
    {
        self.tables.functions.len()
    }

    // The function with this number.
    pub fn function(&self, f: u8) -> Option<FunctionEntry>
        ensures { result ≡ function_at (sheet_tables self.now).functions f }
    {
        self.tables.function(f)
    }

    // The step at an offset that a derivation reaches. That a step stands there is known, so there is no other answer.
    pub fn step_at(&self, at: usize) -> Step
        requires stands { StepStands (bytes_of self.now) at }
        ensures { fetch (bytes_of self.now) at ≡ Some (AStep result) }
    {
        let bytes = self.bytes();
        first_step(&bytes[at..])
    }
}

// The step with which bytes begin that begin with one.
fn first_step(bytes: &[u8]) -> Step
    requires stands { StepStands bytes.now 0 }
    ensures { fetch bytes.now 0 ≡ Some (AStep result) }
{
    let mut reader = Reader::new(bytes);
    let Ok(Some(Record::Step(step))) = reader.next() else {
        unreachable!()
    };
    step
}
