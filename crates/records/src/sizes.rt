// How many bytes each record takes, its kind byte included.
ghost use Rattle.records.specs.Writing.{size, step_size};
ghost use Rattle.std.specs.Prelude.{◌≡◌};

use crate::kinds::{Record, Step};

impl Step {
    pub fn size(&self) -> usize
        ensures { result ≡ step_size self.now }
    {
        match self {
            Step::Const { .. } => 6,
            Step::Arith { .. } => 5,
            Step::Empty { .. } => 3,
            Step::Cons { .. } => 5,
            Step::Call { .. } => 7,
            Step::Return { .. } => 2,
            Step::Match { .. } => 6,
            Step::If { .. } => 4,
        }
    }
}

impl Record {
    pub fn size(&self) -> usize
        ensures { result ≡ size self.now }
    {
        match self {
            Record::ListType(_) => 4,
            Record::Function(_) => 11,
            Record::Step(step) => step.size(),
        }
    }
}
