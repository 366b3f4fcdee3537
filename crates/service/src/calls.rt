// The calls of a service as values, and what they answer.
use engine::EngineFault;
use inner::State;

// The seven calls, and the four questions.
#[derive(Drop, PartialEq, Eq, Debug)]
pub enum Call {
    Load(Vec<u8>),
    Feed(Vec<u8>),
    Fund,
    Step,
    Advance(u32),
    Pull,
    Abandon,
    Price,
    Free,
    Held,
    State,
}

// What a call answers that is not refused.
#[derive(Clone, Copy, PartialEq, Eq, Debug)]
pub enum Reply {
    // to load, feed, fund and abandon
    Accepted,
    // to a step and to the question of the state
    Now(State),
    // to an advance: the steps made, and the state
    Advanced(u32, State),
    // to a pull: a number of the result, or none at its end
    Pulled(Option<u32>),
    // to the questions of price, free and held
    Counted(u32),
}

pub type Answer = Result<Reply, EngineFault>;
