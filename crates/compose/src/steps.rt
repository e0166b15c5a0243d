// The order that is one gate.
ghost use Rattle.gate.specs.Places.{InRange, parts};
ghost use Rattle.ring.specs.Rings.{modulus_of};
ghost use Rattle.circuit.specs.Loans.{Sends, Supplied, circuit_left};
ghost use Rattle.circuit.specs.Orders.{multiplication};

use circuit::Lent;
use gate::{Sharing, ring_words};
use ring::Ring;

// Order 4: one gate, whose words are the new sub-shares.
#[inline(always)]
pub fn multiply(r: Ring, x: Sharing, y: Sharing, lent: &mut Lent<'_>) -> Sharing
    requires left { InRange (modulus_of r) x }
    requires right { InRange (modulus_of r) y }
    requires supplied { Supplied (modulus_of r) 1 lent.old }
    ensures is { Sends 1 (circuit_left (multiplication (modulus_of r)) (parts x) (parts y) result) lent.old lent.new }
    ensures below { InRange (modulus_of r) result }
{
    let e = r.width();
    let p = r.modulus();
    lent.gate(|t| ring_words(e, p, x, y, t))
}
