// The order: its stages one after the other, two a function.
ghost use Rattle.std.specs.Prelude.{◌+◌, ◌*◌, ◌-◌, ◌<◌, ◌≤◌, ◌^◌, ◌++◌, ◌∷◌, ◌≡◌};
ghost use Rattle.ring.specs.Rings.{modulus_of, width_of};
ghost use Rattle.gate.specs.Places.{InRange, parts};
ghost use Rattle.gate.specs.declared.sharing.Sharing.{Sharing};
ghost use Rattle.circuit.specs.Circuits.{upto};
ghost use Rattle.circuit.specs.Decompose.{raising_gate, running_gate, zero_gate};
ghost use Rattle.circuit.specs.Loans.{Sends, Supplied, circuit_left};
ghost use Rattle.circuit.specs.Orders.{decomposition};
ghost use Rattle.circuit.specs.Sharings.{zeros};
ghost use Rattle.decompose.specs.Turns.{bits_ended};
ghost use Rattle.decompose.specs.Words.{digits_of, totalled};

use crate::stages::{carry_stage, raising_stage, running_stage};
use crate::turns::zero_turn;
use crate::words::finish;
use circuit::{Lent, four_times};
use gate::Sharing;
use ring::Ring;

// (iii) and (iv): the increment of a total's bits from 2 up, and the result.
#[inline(always)]
fn increment(total: Sharing, l: u64, lent: &mut Lent<'_>) -> Sharing
    requires count { (1 ≤ l) × (l < 62) }
    requires supplied { Supplied 2 l lent.old }
    ensures ended { (x carries running : Sharing) → total ≡ totalled x carries running →
        Sends l (bits_ended l (zero_gate ∷ upto raising_gate (l - 1)) (digits_of x carries running zeros) result) lent.old lent.new }
    ensures below { InRange (2 ^ l) result }
{
    let first = zero_turn(total, lent);
    let raising = raising_stage(total, first, l - 1, lent);
    finish(total, raising, l)
}

// (ii) to (iv): from the carries on.
#[inline(always)]
fn from_carries(x: Sharing, carries: Sharing, l: u64, lent: &mut Lent<'_>) -> Sharing
    requires count { (1 ≤ l) × (l < 62) }
    requires supplied { Supplied 2 (l + l) lent.old }
    ensures ended { let gates = upto (λ k. running_gate (k + 1)) l ++ (zero_gate ∷ upto raising_gate (l - 1)) in
        Sends (l + l) (bits_ended l gates (digits_of x carries zeros zeros) result) lent.old lent.new }
    ensures below { InRange (2 ^ l) result }
{
    let running = running_stage(x, carries, l, lent);
    let total = x ^ carries ^ running;
    increment(total, l, lent)
}

// (i) to (iv).
#[inline(always)]
fn run_stages(r: Ring, a: Sharing, l: u64, lent: &mut Lent<'_>) -> Sharing
    requires source { InRange (modulus_of r) a }
    requires count { (1 ≤ l) × (l + 2 ≤ width_of r) }
    requires supplied { Supplied 2 (3 * l + 1) lent.old }
    ensures left { Sends (3 * l + 1) (circuit_left (decomposition (width_of r) l) (parts a) (parts a) result) lent.old lent.new }
    ensures below { InRange (2 ^ l) result }
{
    let x = four_times(r, a);
    let carries = carry_stage(x, l + 1, lent);
    from_carries(x, carries, l, lent)
}

// Decomposes a into l bits: 3l + 1 gates. They run on a copy of what is lent: no word that they send can change it, so its addresses
// stay in registers.
pub fn decompose(r: Ring, a: Sharing, l: u64, lent: &mut Lent<'_>) -> Sharing
    requires source { InRange (modulus_of r) a }
    requires count { (1 ≤ l) × (l + 2 ≤ width_of r) }
    requires supplied { Supplied 2 (3 * l + 1) lent.old }
    ensures left { Sends (3 * l + 1) (circuit_left (decomposition (width_of r) l) (parts a) (parts a) result) lent.old lent.new }
    ensures below { InRange (2 ^ l) result }
{
    let own = &mut Lent {
        m0: lent.m0,
        m1: lent.m1,
        m2: lent.m2,
        c0: &mut *lent.c0,
        c1: &mut *lent.c1,
        c2: &mut *lent.c2,
        at: lent.at,
    };
    let z = run_stages(r, a, l, own);
    lent.at = own.at;
    z
}
