// What an order does to the record.
ghost use Rattle.std.specs.Prelude.{List, ◌≡◌, ℕ};
ghost use Rattle.gate.specs.Places.{Place};
ghost use Rattle.order.specs.Answers.{reported};
ghost use Rattle.order.specs.Changes.{Fits, Makes, answer_of, applied, done_by, made};

use crate::answers::Outcome;
use machine::{Answer, Done, Machine, Refusal, Register};

// A register stored, with the gates spent and the dealer's items taken; or a value opened. A refused order makes none.
#[derive(Clone, Copy)]
pub enum Change {
    Stored {
        d: u64,
        register: Register,
        gates: u64,
        items: u64,
    },
    Opened {
        value: u64,
    },
}

impl Change {
    // What the order answers.
    pub fn done(self) -> Done
        ensures { result ≡ done_by self }
    {
        match self {
            Change::Stored {
                d: _,
                register: _,
                gates,
                items: _,
            } => Done { value: 0, gates },
            Change::Opened { value } => Done { value, gates: 0 },
        }
    }

    // The record that it leaves.
    fn made(self, m: Machine) -> Machine
        requires { Makes m self }
        ensures { result ≡ made self m }
    {
        match self {
            Change::Stored {
                d,
                register,
                gates,
                items,
            } => m.moved(gates, gates, items).with_register(d, register),
            Change::Opened { value: _ } => m.moved(0, 1, 0),
        }
    }
}

// What an order answers.
pub fn answer(k: Result<Change, Refusal>) -> Answer
    ensures { result ≡ answer_of k }
{
    k.map(|change| change.done())
}

// The record that an order leaves, and the answer.
pub fn apply(m: Machine, k: Result<Change, Refusal>) -> Outcome
    requires { Fits m k }
    ensures { (c : Place → List ℕ) → reported result c ≡ applied k m c }
{
    match k {
        Ok(change) => Outcome {
            machine: change.made(m),
            answer: answer(k),
        },
        Err(_) => Outcome {
            machine: m,
            answer: answer(k),
        },
    }
}
