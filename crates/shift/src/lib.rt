// Order 7 of 01: a number's bits from s up, composed in the same ring.
#![tactic(auto)]

ghost use Rattle.std.specs.Prelude.{◌+◌, ◌*◌, ◌-◌, ◌≤◌};
ghost use Rattle.ring.specs.Rings.{modulus_of, width_of};
ghost use Rattle.gate.specs.Places.{InRange, parts};
ghost use Rattle.circuit.specs.Loans.{ItemsIn, Room, Sends, circuit_left};
ghost use Rattle.circuit.specs.Orders.{shifting};

use circuit::Lent;
use compose::compose_bits;
use decompose::decompose;
use gate::Sharing;
use ring::Ring;

// Order 7: all e - 2 bits, and then those from s up: 3(e-2) + 1 gates on bits, 2(e-2-s) in the ring.
#[inline(always)]
pub fn shift(r: Ring, a: Sharing, s: u64, lent: &mut Lent<'_>) -> Sharing
    requires source { InRange (modulus_of r) a }
    requires shift { s + 3 ≤ width_of r }
    requires room { Room (3 * (width_of r - 2) + 1 + 2 * (width_of r - 2 - s)) lent.old }
    requires first { ItemsIn 2 0 (3 * (width_of r - 2) + 1) lent.old }
    requires items { ItemsIn (modulus_of r) (3 * (width_of r - 2) + 1) (2 * (width_of r - 2 - s)) lent.old }
    ensures is { let n = 3 * (width_of r - 2) + 1 + 2 * (width_of r - 2 - s) in
        Sends n (circuit_left (shifting (width_of r) s) (parts a) (parts a) result) lent.old lent.new }
    ensures below { InRange (modulus_of r) result }
{
    let l = r.width() - 2;
    let w = decompose(r, a, l, lent);
    compose_bits(r, w, s, l - s, lent)
}
