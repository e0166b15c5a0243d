// The stages of order 5, each a loop over gates of one kind. Apart from decompose's: planes are kept in arrays, bits of one figure
// in words.
ghost use Rattle.std.specs.Prelude.{ℕ, ◌+◌, ◌<◌};
ghost use Rattle.circuit.specs.Circuits.{upto};
ghost use Rattle.circuit.specs.Decompose.{carry_gate};
ghost use Rattle.circuit.specs.Loans.{Room, Sends};
ghost use Rattle.planes.specs.Planes.{NoPlanes};
ghost use Rattle.lanes.specs.Stages.{EachRan, RaisingRan, Running, ZeroRan, carried, fresh};

use crate::words::total_in;
use circuit::{Lent, zeros};
use gate::{Sharing, bit_words};
use planes::{Planes, majority_words};

// (i) The carries: n gates. Each of x's three bits is known at one place alone, another at each, so no map makes them.
pub fn carry_lanes(x: &Planes, n: usize, lent: &mut Lent<'_>, q: &mut Planes)
    requires count { n < 63 }
    requires room { Room n lent.old }
    ensures { Sends n (EachRan (upto carry_gate n) (fresh x.now) (carried x.now q.new (n + 1))) lent.old lent.new }
{
    let none = zeros();
    q.store(0, none);
    for j in 0..n {
        let b = x.at(j);
        let first = Sharing { s0: b.s0, ..none };
        let second = Sharing { s1: b.s1, ..none };
        let third = Sharing { s2: b.s2, ..none };
        let z = lent.gate(|t| majority_words(first, second, third, t));
        q.store(j + 1, third ^ z);
    }
}

// (ii) The running carries: n gates, from bit 1 on. The total takes the place of the carries.
pub fn running_lanes(x: &Planes, n: usize, lent: &mut Lent<'_>, s: &mut Planes)
    requires count { n < 62 }
    requires room { Room n lent.old }
    ensures { Sends n (Running n x.now s.old s.new) lent.old lent.new }
{
    let mut last = zeros();
    total_in(x, s, 0, last);
    for i in 0..n {
        let b = x.at(i + 1);
        let u = s.at(i + 1);
        let z = lent.gate(|t| majority_words(b, u, last, t));
        total_in(x, s, i + 1, last);
        last = last ^ z;
    }
    total_in(x, s, n + 1, last);
}

// (iii) The first carry of the increment: one gate.
pub fn zero_lanes(s: &Planes, lent: &mut Lent<'_>) -> Sharing
    requires { Room 1 lent.old }
    ensures { Sends 1 (ZeroRan s.now result) lent.old lent.new }
{
    let left = s.at(0);
    let right = s.at(1);
    let z = lent.gate(|t| bit_words(left, right, t));
    left ^ right ^ z
}

// (iv) The carries of the increment from the first, which is given: n gates, and n + 1 planes of the result. Planes above
// stand.
pub fn raising_lanes(s: &Planes, first: Sharing, n: usize, lent: &mut Lent<'_>, o: &mut Planes)
    requires count { n < 61 }
    requires room { Room n lent.old }
    ensures is { Sends n (RaisingRan n s.now first o.new) lent.old lent.new }
    ensures none { (e : ℕ) → n < e → NoPlanes e o.old → NoPlanes e o.new }
{
    let mut carry = first;
    for j in 0..n {
        let b = s.at(j + 2);
        let z = lent.gate(|t| bit_words(b, carry, t));
        o.store(j, b ^ carry);
        carry = z;
    }
    let top = s.at(n + 2);
    o.store(n, top ^ carry);
}
