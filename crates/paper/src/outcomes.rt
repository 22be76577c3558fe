// What the public functions hand back.
ghost use Rattle.std.specs.Prelude.{◌≡◌};
ghost use Rattle.paper.specs.Outcomes.{check, handed_back, outcome_of, opening_of};

use crate::answers;
use crate::answers::{Answer, Condition, Opened, Values};
use crate::state::Coordinator;

// The next state, the answer with its values, and how many bytes were delivered.
#[derive(Clone, Copy)]
pub struct Outcome {
    pub state: Coordinator,
    pub answer: Answer,
    pub values: Values,
    pub delivered: usize,
}

// What a setup starts.
#[derive(Clone, Copy)]
pub struct Started {
    pub state: Coordinator,
    pub answer: Answer,
    pub values: Values,
}

// The answer to the route question, with its values.
#[derive(Clone, Copy)]
pub struct Opening {
    pub opened: Opened,
    pub values: Values,
}

// An outcome with the values of its answer.
pub fn handed_back(c: Coordinator, answer: Answer, delivered: usize) -> Outcome
    ensures { result ≡ handed_back c answer delivered }
{
    Outcome {
        state: c,
        answer,
        values: answers::values_of(answer),
        delivered,
    }
}

// "A CHECK CONDITION changes nothing."
pub fn checked(c: Coordinator, k: Condition) -> Outcome
    ensures { result ≡ outcome_of c (check k) }
{
    handed_back(c, Answer::Check(k), 0)
}

// An opening with the values of its answer.
pub fn opening_of(opened: Opened) -> Opening
    ensures { result ≡ opening_of opened }
{
    Opening {
        opened,
        values: answers::values_of(answers::answer_of(opened)),
    }
}
