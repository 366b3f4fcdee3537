// The check of a sheet.
ghost use Rattle.std.specs.Prelude.{◌≡◌};
ghost use Rattle.rules.specs.Verdict.{verdict as verdict_on};
ghost use Rattle.sheet.specs.Checked.{AcceptsExactly, Copies, answered};
ghost use Rattle.sheet.specs.Held.{held};

use crate::gathering::second_round;
use crate::passed::Sheet;
use crate::rounds::third_round;
use crate::tables::Tables;
use arrayvec::ArrayVec;
use records::{Fault, first_round};

// Any bytes: the sheet, or the first fault. The bytes are accepted exactly when they have the form of a sheet, within the
// limits, and the rules derive every function at its stated amounts.
pub fn check(bytes: &[u8]) -> Result<Sheet, Fault>
    ensures verdict { answered result ≡ verdict_on bytes.now }
    ensures exact { AcceptsExactly bytes.now result }
    ensures copies { Copies bytes.now result }
{
    made(bytes)
}

// The sheet of bytes that pass the three rounds; `check` adds what its answer means for the bytes, once for all its exits.
fn made(bytes: &[u8]) -> Result<Sheet, Fault>
    ensures verdict { answered result ≡ verdict_on bytes.now }
    ensures copies { Copies bytes.now result }
{
    let tables = three_rounds(bytes)?;
    // the first round refuses more bytes than fit
    let copy = ArrayVec::try_from(bytes).unwrap();
    Ok(Sheet {
        bytes: copy,
        tables,
    })
}

// Each round is for a sheet that the rounds before have passed.
fn three_rounds(bytes: &[u8]) -> Result<Tables, Fault>
    ensures { held result ≡ verdict_on bytes.now }
{
    first_round(bytes)?;
    let tables = second_round(bytes)?;
    third_round(&tables, bytes)?;
    Ok(tables)
}
