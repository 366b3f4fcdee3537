// The second round: types and function records are read into the tables.
ghost use Rattle.std.specs.Prelude.{◌≡◌, ◌-◌, length, Ok};
ghost use Rattle.records.specs.Rows.{row};
ghost use Rattle.rules.specs.SecondRound.{function_fault, gathered, no_tables, numbers_listed, signature_right, step_fault, type_fault, with_function, with_type};
ghost use Rattle.sheet.specs.Held.{held, tables_of, types_of};

use crate::tables::Tables;
use crate::types::padded;
use arrayvec::ArrayVec;
use records::{Cause, Fault, NodeType, Reader, Record, Signature};
use rules::FunctionEntry;

// The most parameters of a function.
const PARAMETERS: u8 = 4;

impl Tables {
    // No derived Default: the type has ghost fields.
    fn none() -> Self
        ensures { tables_of result ≡ no_tables }
    {
        Tables {
            types: ArrayVec::new(),
            functions: ArrayVec::new(),
        }
    }

    fn check_type(&self, x: NodeType) -> Result<(), Cause>
        ensures { result ≡ type_fault (tables_of self.now) x }
    {
        if !self.functions.is_empty() {
            return Err(Cause::OutOfOrder);
        }
        if self.types.is_full() {
            return Err(Cause::TooMany);
        }
        if x.element as usize > self.types.len() {
            return Err(Cause::ElementNotLower);
        }
        Ok(())
    }

    fn signature_right(&self, g: &Signature) -> bool
        ensures { result ≡ signature_right (length (types_of self.now)) g.now }
    {
        g.count <= PARAMETERS
            && padded(self.types.len() as u8 + 1, g.count, &g.params)
            && g.result as usize <= self.types.len()
    }

    // Whether t numbers a list of Number.
    fn numbers_listed(&self, t: u8) -> bool
        ensures { result ≡ numbers_listed (types_of self.now) t }
    {
        self.list_type(t).is_some_and(|list| list.element == 0)
    }

    fn check_function(&self, g: &Signature) -> Result<(), Cause>
        ensures { result ≡ function_fault (tables_of self.now) g.now }
    {
        if self.functions.is_full() {
            return Err(Cause::TooMany);
        }
        if !self.signature_right(g) {
            return Err(Cause::BadSignature);
        }
        if self.functions.is_empty() && !self.numbers_listed(g.result) {
            return Err(Cause::BadResult);
        }
        Ok(())
    }

    fn check_step(&self) -> Result<(), Cause>
        ensures { result ≡ step_fault (tables_of self.now) }
    {
        if self.functions.is_empty() {
            return Err(Cause::OutOfOrder);
        }
        Ok(())
    }

    fn add_type(&mut self, x: NodeType)
        requires fine { Ok tt ≡ type_fault (tables_of self.old) x }
        ensures { tables_of self.new ≡ with_type (tables_of self.old) x }
    {
        self.types.push(x);
    }

    fn add_function(&mut self, signature: Signature, body: usize)
        requires fine { Ok tt ≡ function_fault (tables_of self.old) signature }
        ensures { tables_of self.new ≡ with_function (tables_of self.old) signature body }
    {
        self.functions.push(FunctionEntry { signature, body });
    }
}

// The tables of a sheet that has passed the first round, or the first fault.
pub(crate) fn second_round(bytes: &[u8]) -> Result<Tables, Fault>
    ensures { held result ≡ gathered (row bytes.now 0) no_tables }
{
    let mut reader = Reader::new(bytes);
    let mut tables = Tables::none();
    // No `while let`: the place is taken before each record, and the end is judged at its place like a record.
    'records: loop {
        let place = reader.place();
        let at_place = |cause| Fault { cause, place };
        match reader.next()? {
            Some(Record::ListType(x)) => {
                tables.check_type(x).map_err(at_place)?;
                tables.add_type(x);
            }
            Some(Record::Function(g)) => {
                tables.check_function(&g).map_err(at_place)?;
                tables.add_function(g, reader.place());
            }
            Some(Record::Step(_)) => tables.check_step().map_err(at_place)?,
            None if tables.functions.is_empty() => return Err(at_place(Cause::NoFunction)),
            None => return Ok(tables),
        }
    }
}
