// A chain of gates in a ring, each from the last one's sharing. The channels stay three slices: C lends them so.
ghost use Rattle.std.specs.Prelude.{◌≡◌, ◌+◌, ◌*◌, ◌≤◌, length};
ghost use Rattle.gate.specs.Lent.{at_entry_mut, at_exit};
ghost use Rattle.gate.specs.Places.{InRange};
ghost use Rattle.ring.specs.Lent.{Stands};
ghost use Rattle.ring.specs.Rings.{Sized, modulus_of};
ghost use Rattle.timing.specs.Chains.{Ran, Shape, chain, gates, shaped, started, triple_at};

use crate::products::same_lengths;
use gate::{Sharing, ring_words, send};
use ring::Ring;

// The three words of ws at `at` and on. By place: a slice pattern would need an arm for fewer than three, which cannot be.
fn triple(ws: &[u64], at: usize) -> Sharing
    requires { at + 3 ≤ length ws.now }
    ensures { result ≡ triple_at ws.now at }
{
    Sharing {
        s0: ws[at],
        s1: ws[at + 1],
        s2: ws[at + 2],
    }
}

// Whether the lengths fit: three words of x and of y, three items a gate. No one comparison: each length has its own measure.
#[tactic(auto, unfolding(crate::specs::Chains::shaped))]
fn lengths_fit(x: usize, y: usize, items: usize, n0: usize, n1: usize, n2: usize) -> bool
    ensures { result ≡ shaped x y items n0 n1 n2 }
{
    (x == 3) & (y == 3) & same_lengths(n1, n2, n0) & (n0 <= items / 3)
}

// Gates modulo p = 2^e - 1 from x on, up to the first item out of range. Width and modulus are found once before the loop.
fn run_chain(
    e: u64,
    p: u64,
    x: Sharing,
    y: Sharing,
    items: &[u64],
    c0: &mut [u64],
    c1: &mut [u64],
    c2: &mut [u64],
) -> usize
    requires sized { Sized e p }
    requires left { InRange p x }
    requires right { InRange p y }
    requires lengths { Shape items.now c0.old c1.old c2.old }
    ensures { Ran (chain p y items.now (length c0.old) 0 x) result (at_entry_mut c0 c1 c2) (at_exit c0 c1 c2) }
{
    let mut z = x;
    let n = c0.len();
    for i in 0..n {
        let t = triple(items, 3 * i);
        if !t.is_below(p) {
            return i;
        }
        z = ring_words(e, p, z, y, t);
        send(z, &mut c0[i..], &mut c1[i..], &mut c2[i..]);
    }
    n
}

// The chain from x, where x and y are in range.
fn start_chain(
    r: Ring,
    x: Sharing,
    y: Sharing,
    items: &[u64],
    c0: &mut [u64],
    c1: &mut [u64],
    c2: &mut [u64],
) -> usize
    requires { Shape items.now c0.old c1.old c2.old }
    ensures { Ran (started (modulus_of r) x y items.now (length c0.old)) result (at_entry_mut c0 c1 c2) (at_exit c0 c1 c2) }
{
    let e = r.width();
    let p = r.modulus();
    if x.is_below(p) & y.is_below(p) {
        return run_chain(e, p, x, y, items, c0, c1, c2);
    }
    0
}

// A chain of gates in the ring of a width; answers how many were done, as C reads it.
#[unsafe(no_mangle)]
pub extern "C" fn timing_gate(
    width: u64,
    x: &[u64],
    y: &[u64],
    items: &[u64],
    c0: &mut [u64],
    c1: &mut [u64],
    c2: &mut [u64],
) -> u64
    ensures is { Ran (gates width x.now y.now items.now (at_entry_mut c0 c1 c2)) result (at_entry_mut c0 c1 c2) (at_exit c0 c1 c2) }
    ensures lent { Stands x × Stands y × Stands items }
{
    let Some(r) = Ring::of_width(width) else {
        return 0;
    };
    if !lengths_fit(x.len(), y.len(), items.len(), c0.len(), c1.len(), c2.len()) {
        return 0;
    }
    let from = triple(x, 0);
    let by = triple(y, 0);
    start_chain(r, from, by, items, c0, c1, c2) as u64
}
