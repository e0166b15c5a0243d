// Order 8: shared bits become a number of a ring, two gates a bit.
// Width and modulus go on as two numbers, found once before the loop: with a ring, its choice in every turn took a tenth of the time.
ghost use Rattle.std.specs.Prelude.{◌≡◌, ◌+◌, ◌*◌, ◌%◌, ◌<◌, ◌≤◌, ◌^◌};
ghost use Rattle.gate.specs.Places.{InRange, Place, parts, three};
ghost use Rattle.ring.specs.Modular.{Cong};
ghost use Rattle.ring.specs.Rings.{Sized, bit_of, modulus, modulus_of, width_of};
ghost use Rattle.circuit.specs.Circuits.{heads};
ghost use Rattle.circuit.specs.Loans.{Sends, Supplied, circuit_left};
ghost use Rattle.circuit.specs.Orders.{composition};
ghost use Rattle.compose.specs.Steps.{Joined, Joins};
ghost use Rattle.compose.specs.Sums.{JoinsBit, bits_summed};

use circuit::{Lent, zeros};
use gate::{Sharing, words_by_bit, words_of_bits};
use ring::{Ring, add_rotated, bit, reduce_once};

// u + v - 2uv of one place, not reduced, uv being the gate's word.
fn join_share(p: u64, u: u64, v: u64, uv: u64) -> u64
    requires room { p < 2 ^ 61 }
    requires left { u < 2 * p + 2 }
    requires right { v < 2 }
    requires product { uv < p }
    ensures { Joined p u v uv result }
{
    u + v + 2 * (p - uv)
}

// The same at each place, z being the words of the gate: three sharings at once, for which there is no zip.
fn join_shares(p: u64, u: Sharing, v: Sharing, z: Sharing) -> Sharing
    requires room { p < 2 ^ 61 }
    requires left { InRange (2 * p + 2) u }
    requires right { InRange 2 v }
    requires product { InRange p z }
    ensures { (i : Place) → Joined p (parts u i) (parts v i) (parts z i) (parts result i) }
{
    let s0 = join_share(p, u.s0, v.s0, z.s0);
    let s1 = join_share(p, u.s1, v.s1, z.s1);
    let s2 = join_share(p, u.s2, v.s2, z.s2);
    Sharing { s0, s1, s2 }
}

// Sub-share 0 of bit j of w with sub-share 1; what they give is not reduced. Each bit has a place of its own: nothing to map.
#[tactic(auto, using(ring::proofs::RangeLaw::sized_lt))]
fn join_first(e: u64, p: u64, w: Sharing, j: u64, lent: &mut Lent<'_>) -> Sharing
    requires sized { Sized e p }
    requires place { j < 64 }
    requires supplied { Supplied p 1 lent.old }
    ensures is { Sends 1 (λ T c d. Joins p (three (bit_of w.s0 j) 0 0) (three 0 (bit_of w.s1 j) 0) (heads T) c result d) lent.old lent.new }
    ensures below { InRange (2 * p + 2) result }
{
    let b0 = bit(w.s0, j);
    let b1 = bit(w.s1, j);
    let z = lent.gate(|t| words_of_bits(e, p, b0, b1, t));
    let none = zeros();
    let u = Sharing { s0: b0, ..none };
    let v = Sharing { s1: b1, ..none };
    join_shares(p, u, v, z)
}

// What these give with sub-share 2, not reduced.
#[tactic(auto, using(ring::proofs::RangeLaw::sized_lt))]
fn join_last(e: u64, p: u64, w: Sharing, j: u64, half: Sharing, lent: &mut Lent<'_>) -> Sharing
    requires sized { Sized e p }
    requires place { j < 64 }
    requires half { InRange (2 * p + 2) half }
    requires supplied { Supplied p 1 lent.old }
    ensures is { Sends 1 (λ T c d. Joins p (parts half) (three 0 0 (bit_of w.s2 j)) (heads T) c result d) lent.old lent.new }
    ensures below { InRange (4 * p + 4) result }
{
    let b2 = bit(w.s2, j);
    let z = lent.gate(|t| words_by_bit(e, p, half, b2, t));
    let v = Sharing { s2: b2, ..zeros() };
    join_shares(p, half, v, z)
}

// The ring shares of bit j of w, not reduced: sub-share 0 with 1, then with 2.
fn join_bit(e: u64, p: u64, w: Sharing, j: u64, lent: &mut Lent<'_>) -> Sharing
    requires sized { Sized e p }
    requires place { j < 64 }
    requires supplied { Supplied p 2 lent.old }
    ensures is { Sends 2 (λ T c d. JoinsBit p j (parts w) T c (parts result) d) lent.old lent.new }
    ensures below { InRange (4 * p + 4) result }
{
    let half = join_first(e, p, w, j, lent);
    join_last(e, p, w, j, half, lent)
}

// sum + 2^j × b, not reduced.
#[tactic(auto, using(ring::proofs::RangeLaw::sized_gt))]
fn add_weighted(e: u64, p: u64, sum: Sharing, j: u64, b: Sharing) -> Sharing
    requires sized { Sized e p }
    requires sum { InRange (p + p) sum }
    requires weight { j < e }
    requires bit { InRange (4 * p + 4) b }
    ensures is { (i : Place) → Cong p (parts result i) (parts sum i + 2 ^ j * parts b i) }
    ensures below { InRange (p + p) result }
{
    b.zip(sum, |b, s| add_rotated(e, p, j, b, s))
}

// The power of two after 2^j, modulo p: 2^e is 1.
fn next_power(e: u64, j: u64) -> u64
    requires { j < e }
    ensures is { Cong (modulus e) (2 ^ result) (2 ^ (j + 1)) }
    ensures below { result < e }
{
    if j + 1 == e {
        return 0;
    }
    j + 1
}

// The sums, reduced.
fn reduce_sums(e: u64, p: u64, sum: Sharing) -> Sharing
    requires sized { Sized e p }
    requires sum { InRange (p + p) sum }
    ensures is { (i : Place) → parts result i ≡ parts sum i % p }
    ensures below { InRange p result }
{
    sum.map(|s| reduce_once(e, p, s))
}

// Bits from, from + 1, .. of w, count of them, with weights 1, 2, 4, .. modulo p.
#[inline(always)]
fn sum_bits(r: Ring, w: Sharing, from: u64, count: u64, lent: &mut Lent<'_>) -> Sharing
    requires bits { from + count ≤ 64 }
    requires supplied { Supplied (modulus_of r) (2 * count) lent.old }
    ensures is { Sends (2 * count) (bits_summed (modulus_of r) from count w result) lent.old lent.new }
    ensures below { InRange (modulus_of r) result }
{
    let e = r.width();
    let p = r.modulus();
    let mut sum = zeros();
    let mut power = 0;
    for k in 0..count {
        let b = join_bit(e, p, w, from + k, lent);
        sum = add_weighted(e, p, sum, power, b);
        power = next_power(e, power);
    }
    reduce_sums(e, p, sum)
}

// The same. `decompose` makes such a copy too: one function of both would be handed the loop as a closure of a loan, with its contract
// and its law. The gates run on a copy of what is lent: no word that they send can change it, so its addresses stay in registers.
pub fn compose_bits(r: Ring, w: Sharing, from: u64, count: u64, lent: &mut Lent<'_>) -> Sharing
    requires bits { from + count ≤ 64 }
    requires supplied { Supplied (modulus_of r) (2 * count) lent.old }
    ensures is { Sends (2 * count) (bits_summed (modulus_of r) from count w result) lent.old lent.new }
    ensures below { InRange (modulus_of r) result }
{
    let own = &mut Lent {
        m0: lent.m0,
        m1: lent.m1,
        m2: lent.m2,
        c0: &mut *lent.c0,
        c1: &mut *lent.c1,
        c2: &mut *lent.c2,
        at: lent.at,
    };
    let sum = sum_bits(r, w, from, count, own);
    lent.at = own.at;
    sum
}

// Order 8: all l bits of w.
pub fn compose(f: Ring, w: Sharing, l: u64, lent: &mut Lent<'_>) -> Sharing
    requires bits { l ≤ 59 }
    requires supplied { Supplied (modulus_of f) (2 * l) lent.old }
    ensures is { Sends (2 * l) (circuit_left (composition (width_of f) l) (parts w) (parts w) result) lent.old lent.new }
    ensures below { InRange (modulus_of f) result }
{
    compose_bits(f, w, 0, l, lent)
}
