// The stages, each a loop over gates of one kind.
ghost use Rattle.std.specs.Prelude.{◌≡◌, ◌+◌, ◌<◌};
ghost use Rattle.gate.specs.Places.{InRange};
ghost use Rattle.gate.specs.declared.sharing.Sharing.{Sharing};
ghost use Rattle.circuit.specs.Circuits.{upto};
ghost use Rattle.circuit.specs.Decompose.{carry_gate, raising_gate, running_gate};
ghost use Rattle.circuit.specs.Loans.{Sends, Supplied, gates_ran};
ghost use Rattle.circuit.specs.Sharings.{zeros};
ghost use Rattle.decompose.specs.Words.{digits_of, totalled};

use crate::turns::{carry_turn, raising_turn, running_turn};
use crate::words::store;
use circuit::{Lent, zeros};
use gate::Sharing;

// (i) The carries: n gates.
#[inline(always)]
pub fn carry_stage(x: Sharing, n: u64, lent: &mut Lent<'_>) -> Sharing
    requires count { n < 63 }
    requires supplied { Supplied 2 n lent.old }
    ensures { Sends n (gates_ran (upto carry_gate n) (digits_of x zeros zeros zeros) (digits_of x result zeros zeros)) lent.old lent.new }
{
    let mut carries = zeros();
    for j in 0..n {
        carries = carry_turn(x, carries, j, lent);
    }
    carries
}

// (ii) The running carries: n gates, from bit 1 on.
#[inline(always)]
pub fn running_stage(x: Sharing, carries: Sharing, n: u64, lent: &mut Lent<'_>) -> Sharing
    requires count { n < 62 }
    requires supplied { Supplied 2 n lent.old }
    ensures { Sends n (gates_ran (upto (λ k. running_gate (k + 1)) n) (digits_of x carries zeros zeros) (digits_of x carries result zeros)) lent.old lent.new }
{
    let mut running = zeros();
    let mut last = running;
    for j in 0..n {
        let next = j + 1;
        last = running_turn(x, carries, last, next, lent);
        running = store(running, last, next + 1);
    }
    running
}

// (iv) The carries of the increment from the first, which is given: n gates. One loop for this and the running carries would be passed
// the gate, its law, the first bits and the place to store at, more than the two lines that both turn.
#[inline(always)]
pub fn raising_stage(total: Sharing, first: Sharing, n: u64, lent: &mut Lent<'_>) -> Sharing
    requires count { n < 62 }
    requires first { InRange 2 first }
    requires supplied { Supplied 2 n lent.old }
    ensures { (x carries running : Sharing) → total ≡ totalled x carries running →
        Sends n (gates_ran (upto raising_gate n) (digits_of x carries running first) (digits_of x carries running result)) lent.old lent.new }
{
    let mut raising = first;
    let mut last = first;
    for j in 0..n {
        last = raising_turn(total, last, j, lent);
        raising = store(raising, last, j + 1);
    }
    raising
}
