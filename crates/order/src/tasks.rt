// Orders 4 to 8 once their sources are found.
ghost use Rattle.std.specs.Prelude.{◌≡◌};
ghost use Rattle.machine.specs.Registers.{register_of};
ghost use Rattle.order.specs.Tasks.{Fit, cost_of, costing, kind_left};

use gate::Sharing;
use machine::Register;
use ring::Ring;

// What an order with gates works on: rings, sub-shares and its own number. That one fits (`Fit`) four contracts say: a struct of it and
// a task would be made in each order and taken apart at each match.
#[derive(Clone, Copy)]
pub enum Task {
    Multiply(Ring, Sharing, Sharing),
    Decompose(Ring, Sharing, u64),
    Convert(Ring, Ring, Sharing),
    Shift(Ring, Sharing, u64),
    Compose(Ring, Sharing, u64),
}

// What is left to be done of an accepted order 2 to 8: a register to be stored, or gates.
#[derive(Clone, Copy)]
pub enum Prepared {
    Local(Register),
    Gates(Task),
}

// The gates on bits, which come first, and those in the ring of a modulus.
#[derive(Clone, Copy)]
pub struct Cost {
    pub bits: u64,
    pub ring: u64,
    pub modulus: u64,
}

impl Task {
    pub fn cost(self) -> Cost
        requires { Fit self }
        ensures { result ≡ cost_of self }
    {
        match self {
            Task::Multiply(r, _, _) => costing(0, 1, r),
            Task::Decompose(r, _, l) => costing(3 * l + 1, 0, r),
            Task::Convert(_, f, _) => costing(1, 4, f),
            Task::Shift(r, _, s) => {
                let l = r.width() - 2;
                costing(3 * l + 1, 2 * (l - s), r)
            }
            Task::Compose(f, _, l) => costing(0, 2 * l, f),
        }
    }

    // The register that it leaves.
    pub fn left(self, z: Sharing) -> Register
        ensures { result ≡ register_of (kind_left self) z }
    {
        match self {
            Task::Multiply(r, _, _) | Task::Shift(r, _, _) | Task::Compose(r, _, _) =>
                Register::Number(r, z),
            Task::Decompose(_, _, l) => Register::Bits(l, z),
            Task::Convert(_, f, _) => Register::Number(f, z),
        }
    }
}

// So many gates on bits and in a ring.
fn costing(bits: u64, ring: u64, r: Ring) -> Cost
    ensures { result ≡ costing bits ring r }
{
    Cost {
        bits,
        ring,
        modulus: r.modulus(),
    }
}
