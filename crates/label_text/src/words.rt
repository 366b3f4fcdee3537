// Records and refusals in words, with the fields by their names. The types of `records` are printed behind types of this
// crate, since only the crate of a type or of a trait may join the two.
ghost use Rattle.label_text.specs.Words.{amount_words, field, four_fields, function_words, reason, step_words, type_words, words};
ghost use Rattle.std.specs.Prelude.{◌≡◌, IfOk, Some, string_bytes};

use records::{Cause, NodeType, Record, Signature, Step, UNUSED};
use std::alloc::{AllocError, Global};
use std::fmt;

// A field that may be unused, which UNUSED stands for.
#[derive(Clone, Copy)]
struct Field(u8);

impl fmt::Display for Field {
    ghost output = { λ x. Some (field x.0) };

    fn fmt<W: fmt::Write>(&self, f: &mut fmt::Formatter<W>) -> fmt::Result {
        let n = self.0;
        if n == UNUSED {
            write!(f, "-")
        } else {
            write!(f, "{n}")
        }
    }
}

#[derive(Clone, Copy)]
struct Fields([u8; 4]);

impl fmt::Display for Fields {
    ghost output = { λ x. Some (four_fields x.0) };

    fn fmt<W: fmt::Write>(&self, f: &mut fmt::Formatter<W>) -> fmt::Result {
        let [a, b, c, d] = self.0;
        write!(f, "{} {} {} {}", Field(a), Field(b), Field(c), Field(d))
    }
}

#[derive(Clone, Copy)]
struct Action(Step);

impl fmt::Display for Action {
    ghost output = { λ x. Some (step_words x.0) };

    fn fmt<W: fmt::Write>(&self, f: &mut fmt::Formatter<W>) -> fmt::Result {
        match self.0 {
            Step::Const { d, number } => write!(f, "const, d {d}, number {number}"),
            Step::Arith { d, op, a, b } => write!(f, "arith, d {d}, op {op}, a {a}, b {b}"),
            Step::Empty { d, t } => write!(f, "empty, d {d}, t {t}"),
            Step::Cons { d, t, h, l } => write!(f, "cons, d {d}, t {t}, h {h}, l {l}"),
            Step::Call { d, function, slots } => {
                write!(
                    f,
                    "call, d {d}, function {function}, slots {}",
                    Fields(slots)
                )
            }
            Step::Return { a } => write!(f, "return, a {a}"),
            Step::Match { a, h, l, second } => {
                write!(f, "match list, a {a}, h {h}, l {l}, second {second}")
            }
            Step::If { a, second } => write!(f, "if, a {a}, second {second}"),
        }
    }
}

// The amounts of a function, and its result.
#[derive(Clone, Copy)]
struct Amounts(Signature);

impl fmt::Display for Amounts {
    ghost output = { λ x. Some (amount_words x.0) };

    fn fmt<W: fmt::Write>(&self, f: &mut fmt::Formatter<W>) -> fmt::Result {
        let Signature {
            result: answer,
            entry,
            remainder,
            ..
        } = self.0;
        write!(f, ", result {answer}, entry {entry}, remainder {remainder}")
    }
}

// What is printed in words, with the number that a type or a function record gets.
#[derive(Clone, Copy, Debug, PartialEq, Eq)]
pub struct Numbered<T> {
    pub number: usize,
    pub what: T,
}

impl fmt::Display for Numbered<NodeType> {
    ghost output = { λ x. Some (type_words x.number x.what) };

    fn fmt<W: fmt::Write>(&self, f: &mut fmt::Formatter<W>) -> fmt::Result {
        let number = self.number;
        let NodeType { element, amount } = self.what;
        write!(f, "list type {number}, element {element}, amount {amount}")
    }
}

impl fmt::Display for Numbered<Signature> {
    ghost output = { λ x. Some (function_words x.number x.what) };

    fn fmt<W: fmt::Write>(&self, f: &mut fmt::Formatter<W>) -> fmt::Result {
        let number = self.number;
        let count = self.what.count;
        let params = Fields(self.what.params);
        let amounts = Amounts(self.what);
        write!(
            f,
            "function {number}, count {count}, parameters {params}{amounts}"
        )
    }
}

impl fmt::Display for Numbered<Record> {
    ghost output = { λ x. Some (words x.number x.what) };

    fn fmt<W: fmt::Write>(&self, f: &mut fmt::Formatter<W>) -> fmt::Result {
        let number = self.number;
        match self.what {
            Record::ListType(what) => write!(f, "{}", Numbered { number, what }),
            Record::Function(what) => write!(f, "{}", Numbered { number, what }),
            Record::Step(step) => write!(f, "{}", Action(step)),
        }
    }
}

// A record; `number` is the number that a type or a function record gets.
pub fn record_words(heap: Global, number: usize, record: &Record) -> Result<String, AllocError>
    ensures { IfOk result (λ s. string_bytes s ≡ words number «record».now) }
{
    let what = *record;
    format!(in heap; "{}", Numbered { number, what })
}

// Why a sheet is refused.
#[derive(Clone, Copy)]
pub(crate) struct Reason(pub(crate) Cause);

impl fmt::Display for Reason {
    ghost output = { λ x. Some (reason x.0) };

    fn fmt<W: fmt::Write>(&self, f: &mut fmt::Formatter<W>) -> fmt::Result {
        f.write_str(match self.0 {
            Cause::TooLong => "the sheet is longer than 4096 bytes",
            Cause::UnknownKind => "no record has this kind",
            Cause::CutShort => "the sheet ends inside this record",
            Cause::OutOfOrder => "a step before the first function, or a type behind it",
            Cause::NoFunction => "the sheet has no function",
            Cause::TooMany => "more than 32 types or functions",
            Cause::ElementNotLower => "the element type has not come before",
            Cause::BadSignature => "a count over 4, an unknown type or an FF out of place",
            Cause::BadResult => "the result of function 0 is no list of Number",
            Cause::BodyEnd => "a step behind a body's end, or a body that is not finished",
            Cause::WrongSecond => "the second branch starts elsewhere",
            Cause::TooManyWaiting => "more than 16 second branches wait",
            Cause::BadField => "a slot, function, op, type or FF that cannot stand here",
            Cause::EmptySlot => "an empty slot is used",
            Cause::WrongType => "a slot has the wrong sort, or does not cover what is asked",
            Cause::BadBinding => "a list slot is bound, or one slot twice",
            Cause::ListLeft => "a list is left at a return",
            Cause::BalanceTooSmall => "the balance is too small",
        })
    }
}
