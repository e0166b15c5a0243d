// Outcomes, and the answers' numbers.
ghost use Rattle.std.specs.Prelude.{◌≡◌};
ghost use Rattle.order.specs.Answers.{gates_of, refusal_of, value_of};

use machine::{Answer, Machine};

// The record that an order leaves, and its answer.
#[derive(Clone, Copy)]
pub struct Outcome {
    pub machine: Machine,
    pub answer: Answer,
}

// The number of an answer's refusal, 0 where the order was accepted: the number in 01 is what C is told.
pub fn refusal(a: Answer) -> u64
    ensures { result ≡ refusal_of a }
{
    a.err().map_or(0, |w| w.number())
}

// The value opened, else 0.
pub fn value(a: Answer) -> u64
    ensures { result ≡ value_of a }
{
    a.map_or(0, |done| done.value)
}

// The gates spent.
pub fn gates(a: Answer) -> u64
    ensures { result ≡ gates_of a }
{
    a.map_or(0, |done| done.gates)
}
