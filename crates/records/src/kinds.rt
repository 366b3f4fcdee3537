// The kinds of records of a sheet, with their fields by the letters of the format: d is the slot that is bound, t a type
// number, and a, b, h and l are slots that are used, or in a Match bound; h is for a head and l for a tail.
ghost use Rattle.std.specs.Prelude.{◌≡◌, take};

// Type number 0 is Number, and the type records are numbered from 1.
#[derive(Clone, Copy, Debug, Default, PartialEq, Eq)]
pub struct NodeType {
    pub element: u8,
    pub amount: u16,
}

// What stands in a field for a parameter type or a slot that is not used. A byte and no Option, since in a record that is not
// checked yet a field may be any byte.
pub const UNUSED: u8 = 0xFF;

// What a function record says. Parameter types past the count are UNUSED. They are four bytes with a count, as in the record, since
// what stands past the count is judged too.
#[derive(Clone, Copy, Debug, Default, PartialEq, Eq)]
pub struct Signature {
    pub count: u8,
    pub params: [u8; 4],
    pub result: u8,
    pub entry: u16,
    pub remainder: u16,
}

impl Signature {
    // The types of the parameters. A count over 4, which a record may have, counts no more fields than there are.
    pub fn parameters(&self) -> &[u8]
        ensures { result.now ≡ take self.now.count self.now.params }
    {
        let count = usize::from(self.count).min(self.params.len());
        &self.params[..count]
    }
}

// The records that stand in a function's body. The op of an Arith is any byte, since a record is cut before its fields are
// judged: it may stand for no operation. Slots of a Call past the callee's count are UNUSED.
#[derive(Clone, Copy, Debug, PartialEq, Eq)]
pub enum Step {
    Const { d: u8, number: u32 },
    Arith { d: u8, op: u8, a: u8, b: u8 },
    Empty { d: u8, t: u8 },
    Cons { d: u8, t: u8, h: u8, l: u8 },
    Call { d: u8, function: u8, slots: [u8; 4] },
    Return { a: u8 },
    Match { a: u8, h: u8, l: u8, second: u16 },
    If { a: u8, second: u16 },
}

#[derive(Clone, Copy, Debug, PartialEq, Eq)]
pub enum Record {
    ListType(NodeType),
    Function(Signature),
    Step(Step),
}
