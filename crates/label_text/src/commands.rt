// The words of the command line, and what is said of a text that is no sheet.
ghost use Rattle.label_text.specs.Commands.{Named, fault_words, place_words, slip_words};
ghost use Rattle.std.specs.Prelude.{◌≡◌, IfOk, Some, string_bytes};

use crate::hexes::{Slip, Spot, TextFault};
use std::alloc::{AllocError, Global};
use std::fmt;

// What the program can be asked to do.
#[derive(Clone, Copy, Debug, PartialEq, Eq)]
pub enum Verb {
    List,
    Check,
}

impl Verb {
    // The verb of this name. A FromStr would be no plainer: it needs an error type that says no more than None does.
    pub fn named(word: &str) -> Option<Verb>
        ensures { Named word.now result }
    {
        match word {
            "list" => Some(Verb::List),
            "check" => Some(Verb::Check),
            _ => None,
        }
    }
}

// What is wrong with the text, and where.
pub fn fault_words(heap: Global, fault: &TextFault) -> Result<String, AllocError>
    ensures { IfOk result (λ s. string_bytes s ≡ fault_words fault.now) }
{
    format!(in heap; "{fault}")
}

impl fmt::Display for TextFault {
    ghost output = { λ f. Some (fault_words f) };

    fn fmt<W: fmt::Write>(&self, f: &mut fmt::Formatter<W>) -> fmt::Result {
        let spot = self.spot;
        let slip = self.slip;
        write!(f, "{spot}: {slip}")
    }
}

impl fmt::Display for Spot {
    ghost output = { λ s. Some (place_words s) };

    fn fmt<W: fmt::Write>(&self, f: &mut fmt::Formatter<W>) -> fmt::Result {
        let line = self.line;
        let column = self.column;
        write!(f, "line {line}, column {column}")
    }
}

impl fmt::Display for Slip {
    ghost output = { λ s. Some (slip_words s) };

    fn fmt<W: fmt::Write>(&self, f: &mut fmt::Formatter<W>) -> fmt::Result {
        f.write_str(match self {
            Slip::NotHexadecimal => "this is no hexadecimal digit",
            Slip::HalfByte => "the second digit of a byte is missing",
        })
    }
}
