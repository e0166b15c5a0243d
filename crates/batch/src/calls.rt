// A batch: its checks, and only then the gates. The twelve runs stay slices side by side: C lends them so, one by one.
// `l` is C's u64, and its `as usize` is shown to lose nothing.
ghost use Rattle.std.specs.Prelude.{◌≡◌, ◌+◌, ◌*◌, ◌≤◌, length};
ghost use Rattle.ring.specs.Lent.{Stands};
ghost use Rattle.ring.specs.Rings.{modulus_of, width_of};
ghost use Rattle.gate.specs.Lent.{at_entry, at_entry_mut, at_exit};
ghost use Rattle.circuit.specs.Lent.{ItemsBelow, Long};
ghost use Rattle.machine.specs.Checks.{first_met};
ghost use Rattle.batch.specs.Batch.{batch, figure_checks, lengths_of, performed, settled};
ghost use Rattle.batch.specs.Calls.{answered};

use crate::checks::{batch_ring, figures_why, not_count};
use attempt::Lengths;
use lanes::decompose_lanes;
use machine::{Answer, Done, Refusal};
use ring::Ring;

// An accepted batch.
fn run(
    r: Ring,
    l: u64,
    a0: &[u64],
    a1: &[u64],
    a2: &[u64],
    m0: &[u64],
    m1: &[u64],
    m2: &[u64],
    c0: &mut [u64],
    c1: &mut [u64],
    c2: &mut [u64],
    z0: &mut [u64],
    z1: &mut [u64],
    z2: &mut [u64],
) -> Answer
    requires count { (1 ≤ l) × (l + 2 ≤ width_of r) }
    requires masks { Long (3 * l + 1) m0.now m1.now m2.now }
    requires channels { Long (3 * l + 1) c0.old c1.old c2.old }
    requires lengths { (length a0.now ≡ 64) × (length a1.now ≡ 64) × (length a2.now ≡ 64) }
    requires results { (length z0.old ≡ 64) × (length z1.old ≡ 64) × (length z2.old ≡ 64) }
    requires source { ItemsBelow (modulus_of r) 64 a0.now a1.now a2.now }
    ensures { answered result (at_exit c0 c1 c2) (at_exit z0 z1 z2)
        ≡ performed (width_of r) l (at_entry a0 a1 a2) (at_entry m0 m1 m2) (at_entry_mut c0 c1 c2) }
{
    decompose_lanes(
        r, l as usize, a0, a1, a2, m0, m1, m2, c0, c1, c2, z0, z1, z2,
    );
    Ok(Done {
        value: 0,
        gates: 3 * l + 1,
    })
}

// A batch in its ring, the six runs being 64 long.
fn in_ring(
    r: Ring,
    l: u64,
    a0: &[u64],
    a1: &[u64],
    a2: &[u64],
    m0: &[u64],
    m1: &[u64],
    m2: &[u64],
    c0: &mut [u64],
    c1: &mut [u64],
    c2: &mut [u64],
    z0: &mut [u64],
    z1: &mut [u64],
    z2: &mut [u64],
) -> Answer
    requires lengths { (length a0.now ≡ 64) × (length a1.now ≡ 64) × (length a2.now ≡ 64) }
    requires results { (length z0.old ≡ 64) × (length z1.old ≡ 64) × (length z2.old ≡ 64) }
    ensures { answered result (at_exit c0 c1 c2) (at_exit z0 z1 z2)
        ≡ settled (first_met (figure_checks (width_of r) l (at_entry a0 a1 a2) (lengths_of (at_entry m0 m1 m2) (at_entry_mut c0 c1 c2))))
        (width_of r) l (at_entry a0 a1 a2) (at_entry m0 m1 m2) (at_entry_mut c0 c1 c2) (at_entry_mut z0 z1 z2) }
{
    figures_why(r, l, a0, a1, a2, Lengths::of(m0, m1, m2, c0, c1, c2))?;
    run(r, l, a0, a1, a2, m0, m1, m2, c0, c1, c2, z0, z1, z2)
}

// Decomposes 64 figures of a ring into l bits each, with one word a gate, bit k serving figure k; or refuses, and changes nothing.
pub fn decompose_batch(
    e: u64,
    l: u64,
    a0: &[u64],
    a1: &[u64],
    a2: &[u64],
    m0: &[u64],
    m1: &[u64],
    m2: &[u64],
    c0: &mut [u64],
    c1: &mut [u64],
    c2: &mut [u64],
    z0: &mut [u64],
    z1: &mut [u64],
    z2: &mut [u64],
) -> Answer
    ensures is { answered result (at_exit c0 c1 c2) (at_exit z0 z1 z2)
        ≡ batch e l (at_entry a0 a1 a2) (at_entry m0 m1 m2) (at_entry_mut c0 c1 c2) (at_entry_mut z0 z1 z2) }
    ensures lent { Stands a0 × Stands a1 × Stands a2 × Stands m0 × Stands m1 × Stands m2 }
{
    if not_count(a0.len(), a1.len(), a2.len()) | not_count(z0.len(), z1.len(), z2.len()) {
        return Err(Refusal::NotSixtyFour);
    }
    let r = batch_ring(e).ok_or(Refusal::NoRing)?;
    in_ring(r, l, a0, a1, a2, m0, m1, m2, c0, c1, c2, z0, z1, z2)
}
