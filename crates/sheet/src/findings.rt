// What the check finds of any step.
ghost use Rattle.std.specs.Prelude.{◌≡◌};
ghost use Rattle.sheet.specs.Branches.{finding_on};

use crate::branch::Branch;
use records::{Cause, Step};
use rules::Finding;

impl Branch<'_> {
    // What is found of the step that comes next. A match and no closures: the kinds are fixed, and each has fields of its own.
    pub(crate) fn finding_of(&self, step: Step) -> Result<Finding, Cause>
        ensures { result ≡ finding_on self.now step }
    {
        match step {
            Step::Const { d, number } => self.of_const(d, number),
            Step::Arith { d, op, a, b } => self.of_arith(d, op, a, b),
            Step::Empty { d, t } => self.of_empty(d, t),
            Step::Cons { d, t, h, l } => self.of_cons(d, t, h, l),
            Step::Call { d, function, slots } => self.of_call(d, function, &slots),
            Step::Return { a } => self.of_return(a),
            Step::Match { a, h, l, second } => self.of_match(a, h, l, second),
            Step::If { a, second } => self.of_if(a, second),
        }
    }
}
