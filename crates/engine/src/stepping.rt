// A step: the state and the record that is due decide together what it does.
ghost use Rattle.engine.specs.Answers.{step_answer};
ghost use Rattle.engine.specs.Service.{CallDoes, CallMade, InService};
ghost use Rattle.inner.specs.Serving.{ComesTo, Due};
ghost use Rattle.plain.specs.Calls.{one_step};

use crate::engine::Engine;
use crate::faults::EngineFault;
use cells::store::CellStore;
use inner::State;
use records::Step;
use standing::Slot;

impl<S: CellStore> Engine<S> {
    // The step that the newest frame has come to, while a run is on. One stands there, so nothing of the sheet is tested again.
    fn due(&self) -> Option<Step>
        requires in_service { InService S.Meaning self.now }
        ensures { Due self.now.inner result }
    {
        if self.inner.state != State::Running {
            return None;
        }
        let sheet = self.inner.sheet();
        Some(sheet.step_at(self.inner.frame.next))
    }

    // The step that is due, by its kind. A match and no closures: the kinds are fixed, and each has fields of its own.
    fn make(&mut self, step: Step) -> Result<State, EngineFault>
        requires in_service { InService S.Meaning self.old }
        requires due { ComesTo self.old.inner step }
        ensures { CallDoes S.Meaning self.old one_step (step_answer result) self.new }
    {
        let next = self.inner.frame.next + step.size();
        match step {
            Step::Const { d, number } => {
                self.inner.bind(d, Slot::Number(number), next);
                Ok(State::Running)
            }
            Step::Arith { d, op, a, b } => {
                self.inner.arith(d, op, a, b, next);
                Ok(State::Running)
            }
            Step::Empty { d, t } => {
                self.inner.bind(d, Slot::ListOf { word: 0, of: t }, next);
                Ok(State::Running)
            }
            Step::Cons { d, t, h, l } => {
                self.cons(d, t, h, l, next);
                Ok(State::Running)
            }
            Step::Call { d, function, slots } => {
                if self.inner.callers.is_full() {
                    return Err(EngineFault::TooDeep);
                }
                let callee = self.inner.function(function);
                self.inner.call(d, callee, slots, next);
                Ok(State::Running)
            }
            Step::Return { a } => {
                self.inner.hand_back(a);
                Ok(self.inner.state)
            }
            Step::Match { a, h, l, second } => {
                self.match_list(a, h, l, next, second);
                Ok(State::Running)
            }
            Step::If { a, second } => {
                self.inner.branch(a, next, second);
                Ok(State::Running)
            }
        }
    }

    // One step of the run, and the state after it.
    pub fn step(&mut self) -> Result<State, EngineFault>
        requires in_service { InService S.Meaning self.old }
        ensures { CallMade S.Meaning self.old one_step (step_answer result) self.new }
    {
        match self.due() {
            Some(step) => self.make(step),
            None => Err(EngineFault::Excluded),
        }
    }
}
