// Order 5 for 64 figures at once. Figures, masks, channels and results stay slices: C lends them so.
ghost use Rattle.std.specs.Prelude.{◌≡◌, ◌+◌, ◌*◌, ◌<◌, ◌≤◌, length};
ghost use Rattle.ring.specs.Rings.{modulus_of, width_of};
ghost use Rattle.gate.specs.Lent.{at_entry, at_entry_mut, at_exit};
ghost use Rattle.circuit.specs.Lent.{ItemsBelow, Long};
ghost use Rattle.circuit.specs.Loans.{Room, Sends};
ghost use Rattle.planes.specs.Planes.{NoPlanes};
ghost use Rattle.lanes.specs.Stages.{Increments, Laned, SumsRan, Worked};

use crate::stages::{carry_lanes, raising_lanes, running_lanes, zero_lanes};
use circuit::Lent;
use planes::Planes;
use ring::Ring;

// (i) and (ii): the total, in s.
fn sums(x: &Planes, l: usize, lent: &mut Lent<'_>, s: &mut Planes)
    requires count { (1 ≤ l) × (l < 60) }
    requires room { Room (l + 1 + l) lent.old }
    ensures { Sends (l + 1 + l) (SumsRan l x.now s.new) lent.old lent.new }
{
    carry_lanes(x, l + 1, lent, s);
    running_lanes(x, l, lent, s);
}

// (iii) and (iv): the increment of the total's bits from 2 up, and the planes of the result. Planes of o from e on are 0
// already: only those below are cleared.
fn increment(s: &Planes, l: usize, e: usize, lent: &mut Lent<'_>, o: &mut Planes)
    requires count { (1 ≤ l) × (l < 60) × (l ≤ e) × (e ≤ 64) }
    requires room { Room l lent.old }
    requires width { NoPlanes e o.old }
    ensures is { Sends l (Increments l s.now o.new) lent.old lent.new }
    ensures none { NoPlanes l o.new }
{
    let first = zero_lanes(s, lent);
    raising_lanes(s, first, l - 1, lent, o);
    o.clear(l, e);
}

// From the planes of x to those of the result, in place. x has no planes from e on, the ring's width.
fn work(x: &mut Planes, l: usize, e: usize, lent: &mut Lent<'_>)
    requires count { (1 ≤ l) × (l < 60) × (l ≤ e) × (e ≤ 64) }
    requires room { Room (3 * l + 1) lent.old }
    requires width { NoPlanes e x.old }
    ensures is { Sends (3 * l + 1) (Worked l x.old x.new) lent.old lent.new }
    ensures none { NoPlanes l x.new }
{
    let mut s = Planes::new();
    sums(x, l, lent, &mut s);
    increment(&s, l, e, lent, x);
}

// Decomposes figure k into l bits for each k, with bit k of each item: 3l + 1 gates. The ring's width counts planes here:
// usize has no From of a u64, and `as` loses nothing of at most 61.
pub fn decompose_lanes(
    r: Ring,
    l: usize,
    a0: &[u64],
    a1: &[u64],
    a2: &[u64],
    m0: &[u64],
    m1: &[u64],
    m2: &[u64],
    c0: &mut [u64],
    c1: &mut [u64],
    c2: &mut [u64],
    z0: &mut [u64],
    z1: &mut [u64],
    z2: &mut [u64],
)
    requires count { (1 ≤ l) × (l + 2 ≤ width_of r) }
    requires masks { Long (3 * l + 1) m0.now m1.now m2.now }
    requires channels { Long (3 * l + 1) c0.old c1.old c2.old }
    requires lengths { (length a0.now ≡ 64) × (length a1.now ≡ 64) × (length a2.now ≡ 64) }
    requires results { (length z0.old ≡ 64) × (length z1.old ≡ 64) × (length z2.old ≡ 64) }
    requires source { ItemsBelow (modulus_of r) 64 a0.now a1.now a2.now }
    ensures is { Laned (width_of r) l a0.now a1.now a2.now (at_entry m0 m1 m2) (at_entry_mut c0 c1 c2)
        z0.new z1.new z2.new (at_exit c0 c1 c2) }
    ensures long { (length z0.new ≡ 64) × (length z1.new ≡ 64) × (length z2.new ≡ 64) }
{
    let e = r.width() as usize;
    let mut x = Planes::new();
    x.load(r, a0, a1, a2);
    let mut lent = Lent {
        m0,
        m1,
        m2,
        c0,
        c1,
        c2,
        at: 0,
    };
    work(&mut x, l, e, &mut lent);
    x.unload(r, z0, z1, z2);
}
