// The kinds of records by their kind bytes, and how the fields of each are laid out.
ghost use Rattle.records.specs.Kinds.{CutBehind, Named, kind_byte};

use crate::faults::Cause;
use crate::kinds::{NodeType, Record, Signature, Step};

#[derive(Clone, Copy)]
pub(crate) enum Kind {
    ListType,
    Function,
    Const,
    Arith,
    Empty,
    Cons,
    Call,
    Return,
    Match,
    If,
}

impl TryFrom<u8> for Kind {
    type Error = Cause;

    ghost try_from_gives = { Named };

    fn try_from(byte: u8) -> Result<Self, Cause> {
        match byte {
            0x11 => Ok(Kind::ListType),
            0x20 => Ok(Kind::Function),
            0x30 => Ok(Kind::Const),
            0x31 => Ok(Kind::Arith),
            0x32 => Ok(Kind::Empty),
            0x33 => Ok(Kind::Cons),
            0x35 => Ok(Kind::Call),
            0x40 => Ok(Kind::Return),
            0x41 => Ok(Kind::Match),
            0x43 => Ok(Kind::If),
            _ => Err(Cause::UnknownKind),
        }
    }
}

impl Kind {
    // The record of this kind with the fields that the bytes begin with, where they are all there.
    pub(crate) fn record(self, bytes: &[u8]) -> Result<Record, Cause>
        ensures { CutBehind (kind_byte self) bytes.now result }
    {
        let record = match (self, bytes) {
            (Kind::ListType, &[element, a0, a1, ..]) => Record::ListType(NodeType {
                element,
                amount: u16::from_be_bytes([a0, a1]),
            }),
            (Kind::Function, &[count, p0, p1, p2, p3, result, e0, e1, r0, r1, ..]) => {
                Record::Function(Signature {
                    count,
                    params: [p0, p1, p2, p3],
                    result,
                    entry: u16::from_be_bytes([e0, e1]),
                    remainder: u16::from_be_bytes([r0, r1]),
                })
            }
            (Kind::Const, &[d, n0, n1, n2, n3, ..]) => Record::Step(Step::Const {
                d,
                number: u32::from_be_bytes([n0, n1, n2, n3]),
            }),
            (Kind::Arith, &[d, op, a, b, ..]) => Record::Step(Step::Arith { d, op, a, b }),
            (Kind::Empty, &[d, t, ..]) => Record::Step(Step::Empty { d, t }),
            (Kind::Cons, &[d, t, h, l, ..]) => Record::Step(Step::Cons { d, t, h, l }),
            (Kind::Call, &[d, function, s0, s1, s2, s3, ..]) => Record::Step(Step::Call {
                d,
                function,
                slots: [s0, s1, s2, s3],
            }),
            (Kind::Return, &[a, ..]) => Record::Step(Step::Return { a }),
            (Kind::Match, &[a, h, l, s0, s1, ..]) => Record::Step(Step::Match {
                a,
                h,
                l,
                second: u16::from_be_bytes([s0, s1]),
            }),
            (Kind::If, &[a, s0, s1, ..]) => Record::Step(Step::If {
                a,
                second: u16::from_be_bytes([s0, s1]),
            }),
            _ => return Err(Cause::CutShort),
        };
        Ok(record)
    }
}
