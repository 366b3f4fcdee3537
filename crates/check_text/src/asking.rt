// What function 0 of a sheet asks for each node of its arguments, in words.
ghost use Rattle.check_text.specs.Reports.{amounts, argument_line, argument_lines, asking, parameter_at};
ghost use Rattle.sheet.specs.Sheets.{function_at, sheet_tables};
ghost use Rattle.std.specs.Prelude.{◌≡◌, ℕ, ◌<◌, ◌≤◌, Some, length, slice_get};

use records::Signature;
use rules::TYPES;
use sheet::Sheet;
use std::fmt;

// The amounts of a list type and of its element types, from the outermost list in.
#[derive(Clone, Copy)]
struct Amounts<'a> {
    sheet: &'a Sheet,
    of: u8,
}

impl fmt::Display for Amounts<'_> {
    ghost output = { λ x. Some (amounts (sheet_tables x.sheet.now).types x.of) };

    fn fmt<W: fmt::Write>(&self, f: &mut fmt::Formatter<W>) -> fmt::Result {
        // No type lies deeper than the number of types.
        // Tried as iter::successors(..).take(TYPES): a loop over a closure's items gets no proof in a function that is generic
        // over its writer.
        let mut t = self.of;
        for _ in 0..TYPES {
            let Some(node) = self.sheet.list_type(t) else {
                break;
            };
            let amount = node.amount;
            write!(f, " {amount}")?;
            t = node.element;
        }
        Ok(())
    }
}

#[derive(Clone, Copy)]
struct Argument<'a> {
    sheet: &'a Sheet,
    i: usize,
    t: u8,
}

impl fmt::Display for Argument<'_> {
    ghost output = { λ x. Some (argument_line (sheet_tables x.sheet.now).types x.i x.t) };

    fn fmt<W: fmt::Write>(&self, f: &mut fmt::Formatter<W>) -> fmt::Result {
        let i = self.i;
        let t = self.t;
        let amounts = Amounts {
            sheet: self.sheet,
            of: t,
        };
        writeln!(
            f,
            "argument {i} of type {t} asks for each node, from the outermost list in:{amounts}"
        )
    }
}

// The types of a function's parameters; a count over 4 counts no more fields than there are. Not the method of records: its
// clause does not say that the array has four fields, which the lines need.
fn parameters(signature: &Signature) -> &[u8]
    ensures few { length result.now ≤ 4 }
    ensures each { (k : ℕ) → k < 4 → slice_get result.now k ≡ parameter_at signature.now k }
{
    let count = usize::from(signature.count).min(signature.params.len());
    &signature.params[..count]
}

#[derive(Clone, Copy)]
struct Arguments<'a> {
    sheet: &'a Sheet,
    signature: Signature,
}

impl fmt::Display for Arguments<'_> {
    ghost output = { λ x. Some (argument_lines (sheet_tables x.sheet.now).types x.signature) };

    fn fmt<W: fmt::Write>(&self, f: &mut fmt::Formatter<W>) -> fmt::Result {
        let sheet = self.sheet;
        for (i, t) in parameters(&self.signature).iter().enumerate() {
            let argument = Argument { sheet, i, t: *t };
            write!(f, "{argument}")?;
        }
        Ok(())
    }
}

#[derive(Clone, Copy)]
pub(crate) struct Asking<'a>(pub(crate) &'a Sheet);

impl fmt::Display for Asking<'_> {
    ghost output = { λ x. Some (asking (sheet_tables x.0.now).types (function_at (sheet_tables x.0.now).functions 0)) };

    fn fmt<W: fmt::Write>(&self, f: &mut fmt::Formatter<W>) -> fmt::Result {
        let sheet = self.0;
        match sheet.function(0) {
            Some(entry) => {
                let signature = entry.signature;
                write!(f, "{}", Arguments { sheet, signature })
            }
            None => Ok(()),
        }
    }
}
