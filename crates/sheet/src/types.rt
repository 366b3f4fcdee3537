// Types and functions by their numbers: the tables' records, covering, and the fields that name types or slots.
ghost use Rattle.std.specs.Prelude.{◌≡◌, ◌-◌, ◌==◌, nat_lt};
ghost use Rattle.std.specs.List.{list_all};
ghost use Rattle.rules.specs.Accounts.{slot_covers, slot_of as slot_with};
ghost use Rattle.rules.specs.Tests.{covers, padded as all_padded};
ghost use Rattle.rules.specs.Types.{type_of, type_record as record_of};
ghost use Rattle.sheet.specs.Held.{functions_of, types_of};
ghost use Rattle.sheet.specs.Sheets.{function_at, list_type_at};

use crate::tables::Tables;
use records::{NodeType, UNUSED};
use rules::{FunctionEntry, Slot};

impl Tables {
    // The list type with this number; None for 0, which is Number, and for a number that no type has.
    pub(crate) fn list_type(&self, t: u8) -> Option<NodeType>
        ensures { result ≡ list_type_at (types_of self.now) t }
    {
        let place = t.checked_sub(1)?;
        self.types.get(place as usize).copied()
    }

    // The function with this number.
    pub(crate) fn function(&self, f: u8) -> Option<FunctionEntry>
        ensures { result ≡ function_at (functions_of self.now) f }
    {
        self.functions.get(usize::from(f)).copied()
    }

    // The record of type number t; a number without one stands for a list of Number of amount 0.
    pub(crate) fn type_record(&self, t: u8) -> NodeType
        ensures { result ≡ record_of (types_of self.now) t }
    {
        self.list_type(t).unwrap_or_default()
    }

    // Whether the type numbered s covers the one numbered t. Two walks at once along element types, until either ends; element
    // numbers fall, so one does.
    fn covers(&self, s: u8, t: u8) -> bool
        ensures { result ≡ covers (type_of (types_of self.now) s) (type_of (types_of self.now) t) }
    {
        let mut upper = s;
        let mut lower = t;
        // no index is counted: both sides go on to what they find
        'elements: while upper != 0 && lower != 0 {
            let a = self.type_record(upper);
            let b = self.type_record(lower);
            if a.amount < b.amount {
                return false;
            }
            upper = a.element;
            lower = b.element;
        }
        upper == 0 && lower == 0
    }

    // Whether the slot has a type that covers the type numbered t.
    pub(crate) fn slot_covers(&self, slot: Slot, t: u8) -> bool
        ensures { result ≡ slot_covers (types_of self.now) slot t }
    {
        match slot {
            Slot::Vacant => false,
            Slot::Number => t == 0,
            Slot::ListOf(_) if t == 0 => false,
            Slot::ListOf(s) => {
                let own = self.type_record(s);
                let wanted = self.type_record(t);
                own.amount >= wanted.amount && self.covers(own.element, wanted.element)
            }
        }
    }
}

// A slot that has the type numbered t. No From, which would say that any byte is a slot.
pub(crate) fn slot_of(t: u8) -> Slot
    ensures { result ≡ slot_with t }
{
    if t == 0 {
        Slot::Number
    } else {
        Slot::ListOf(t)
    }
}

// One function for each of two tests, and none that takes the test: so each answers a definition by its name.
fn all_below(limit: u8, fields: &[u8]) -> bool
    ensures { result ≡ list_all (λ x. nat_lt x limit) fields.now }
{
    fields.iter().all(|&x| x < limit)
}

fn all_unused(fields: &[u8]) -> bool
    ensures { result ≡ list_all (λ x. x == 255) fields.now }
{
    fields.iter().all(|&x| x == UNUSED)
}

// Whether of four fields the first `count` are below the limit and the others FF.
pub(crate) fn padded(limit: u8, count: u8, fields: &[u8; 4]) -> bool
    ensures { result ≡ all_padded limit count fields.now }
{
    let Some((used, unused)) = fields.split_at_checked(count as usize) else {
        return false;
    };
    all_below(limit, used) && all_unused(unused)
}
