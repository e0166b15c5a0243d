// Planes of three places.
ghost use Rattle.std.specs.Prelude.{◌≡◌, ◌<◌, ◌≤◌, length};
ghost use Rattle.ring.specs.Rings.{modulus_of, width_of};
ghost use Rattle.circuit.specs.Lent.{ItemsBelow};
ghost use Rattle.circuit.specs.Sharings.{four_times, items_at};
ghost use Rattle.planes.specs.Planes.{Cleared, Loaded, NoPlanes, Whole, planes_at, with_planes};

use crate::rows::{planes_of, rows_of};
use circuit::zeros;
use gate::Sharing;
use ring::Ring;

// Sixty-four planes of each of three places.
#[derive(Drop)]
pub struct Planes {
    p0: [u64; 64],
    p1: [u64; 64],
    p2: [u64; 64],
}

impl Planes {
    // All 0. Not derived: std has no `Default` for arrays of 64.
    pub fn new() -> Planes
        ensures { NoPlanes 0 result }
    {
        Planes {
            p0: [0; 64],
            p1: [0; 64],
            p2: [0; 64],
        }
    }

    // Plane j of the three places. Here and below they are written out: an array of three arrays would be indexed at each all the
    // same, and C lends words and results place by place, as slices.
    pub fn at(&self, j: usize) -> Sharing
        requires { j < 64 }
        ensures is { result ≡ planes_at j self.now }
        ensures whole { Whole self.now }
    {
        Sharing {
            s0: self.p0[j],
            s1: self.p1[j],
            s2: self.p2[j],
        }
    }

    // Stores plane j of the three places.
    pub fn store(&mut self, j: usize, w: Sharing)
        requires { j < 64 }
        ensures is { self.new ≡ with_planes self.old j w }
        ensures whole { Whole self.old }
    {
        self.p0[j] = w.s0;
        self.p1[j] = w.s1;
        self.p2[j] = w.s2;
    }

    // Planes from n on become 0, of which those from e on are 0 already.
    pub fn clear(&mut self, n: usize, e: usize)
        requires count { (n ≤ 64) × (e ≤ 64) }
        requires none { NoPlanes e self.old }
        ensures { Cleared n self.old self.new }
    {
        for j in n..e {
            self.store(j, zeros());
        }
    }

    // The planes of x = 4 a modulo p, into planes of which those from 32 on are 0.
    pub fn load(&mut self, r: Ring, a0: &[u64], a1: &[u64], a2: &[u64])
        requires lengths { (length a0.now ≡ 64) × (length a1.now ≡ 64) × (length a2.now ≡ 64) }
        requires source { ItemsBelow (modulus_of r) 64 a0.now a1.now a2.now }
        requires empty { NoPlanes 32 self.old }
        ensures is { Loaded (λ k. four_times (modulus_of r) (items_at k a0.now a1.now a2.now)) self.new }
        ensures none { NoPlanes (width_of r) self.new }
    {
        planes_of(r, a0, &mut self.p0);
        planes_of(r, a1, &mut self.p1);
        planes_of(r, a2, &mut self.p2);
    }

    // The words of the three places. The planes are used up.
    pub fn unload(&mut self, r: Ring, z0: &mut [u64], z1: &mut [u64], z2: &mut [u64])
        requires lengths { (length z0.old ≡ 64) × (length z1.old ≡ 64) × (length z2.old ≡ 64) }
        requires width { NoPlanes (width_of r) self.old }
        ensures is { Loaded (λ k. items_at k z0.new z1.new z2.new) self.old }
        ensures long { (length z0.new ≡ 64) × (length z1.new ≡ 64) × (length z2.new ≡ 64) }
    {
        rows_of(r, &mut self.p0, z0);
        rows_of(r, &mut self.p1, z1);
        rows_of(r, &mut self.p2, z2);
    }
}
