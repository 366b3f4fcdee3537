// A sheet that has passed the whole check, with a copy of its bytes.
ghost use Rattle.sheet.specs.Invariant.{IsLawful};

use crate::tables::Tables;
use arrayvec::ArrayVec;
use records::SHEET_LIMIT;

// The bytes have the form, the rules derive every function at its stated amounts, and the tables are those of the bytes. Only
// the check makes one.
#[derive(Drop)]
pub struct Sheet {
    pub(crate) bytes: ArrayVec<u8, SHEET_LIMIT>,
    pub(crate) tables: Tables,
    ghost lawful: { IsLawful bytes.items tables },
}
