// Order 6: a number of one ring becomes a number of another.
ghost use Rattle.std.specs.Prelude.{◌≡◌, ◌*◌, ◌%◌, ◌<◌};
ghost use Rattle.gate.specs.Places.{InRange, Place, parts};
ghost use Rattle.ring.specs.Modular.{diff};
ghost use Rattle.ring.specs.Rings.{modulus_of, quarter_of, width_of};
ghost use Rattle.circuit.specs.Loans.{ItemsIn, Room, Sends, Supplied, circuit_left};
ghost use Rattle.circuit.specs.Orders.{conversion};
ghost use Rattle.compose.specs.Quotients.{Carries, Quoted, quotient_with};

use crate::bits::compose_bits;
use circuit::{Lent, four_times, zeros};
use gate::{Sharing, bit_words};
use ring::{Ring, bit};

// -x modulo 4.
fn negated(x: u64) -> u64
    ensures { result ≡ diff 4 0 x }
{
    (4 - (x & 3)) & 3
}

// The shares of the majority of bits 0 of r_0, r_1 and r_2, by one gate. Each bit has a place of its own: nothing to map.
fn low_carry(r: Sharing, lent: &mut Lent<'_>) -> Sharing
    requires { Supplied 2 1 lent.old }
    ensures is { Sends 1 (λ T c d. Carries (parts r) T c result d) lent.old lent.new }
    ensures below { InRange 2 result }
{
    let b0 = bit(r.s0, 0);
    let b1 = bit(r.s1, 0);
    let b2 = bit(r.s2, 0);
    let third = Sharing { s2: b2, ..zeros() };
    let x = Sharing { s0: b0, ..third };
    let y = Sharing { s1: b1, ..third };
    let z = lent.gate(|t| bit_words(x, y, t));
    Sharing { s2: b2 ^ z.s2, ..z }
}

// The two bits of one place's share of q, from r and the share of the carry.
fn quotient_share(r: u64, carry: u64) -> u64
    requires { carry < 2 }
    ensures { result ≡ quotient_with r carry }
{
    let low = bit(r, 0);
    let high = bit(r, 1) ^ carry;
    low + 2 * high
}

// The two bits of q, shared, from the x_i.
fn quotient(x: Sharing, lent: &mut Lent<'_>) -> Sharing
    requires { Supplied 2 1 lent.old }
    ensures { Sends 1 (λ T c d. Quoted (parts x) T c result d) lent.old lent.new }
{
    let r = x.map(negated);
    let k = low_carry(r, lent);
    r.zip(k, quotient_share)
}

// 4^(-1) × (x - p q) modulo p', of one place, with p modulo p'.
fn quartered(f: Ring, p: u64, x: u64, q: u64) -> u64
    requires modulus { p < modulus_of f }
    requires share { q < modulus_of f }
    ensures is { result ≡ quarter_of f * diff (modulus_of f) x (p * q) % modulus_of f }
    ensures below { result < modulus_of f }
{
    let rest = f.sub(f.reduce(x), f.mul(p, q));
    f.mul(f.quarter(), rest)
}

// The new sub-shares, from the x_i and the shares of q.
fn settle(e: Ring, f: Ring, x: Sharing, q: Sharing) -> Sharing
    requires { InRange (modulus_of f) q }
    ensures is { (i : Place) → parts result i ≡ quarter_of f * diff (modulus_of f) (parts x i) (modulus_of e * parts q i) % modulus_of f }
    ensures below { InRange (modulus_of f) result }
{
    let p = f.reduce(e.modulus());
    x.zip(q, |x, q| quartered(f, p, x, q))
}

// Order 6: a majority gate, and two bits composed in the new ring.
pub fn convert(e: Ring, f: Ring, a: Sharing, lent: &mut Lent<'_>) -> Sharing
    requires source { InRange (modulus_of e) a }
    requires room { Room 5 lent.old }
    requires first { ItemsIn 2 0 1 lent.old }
    requires items { ItemsIn (modulus_of f) 1 4 lent.old }
    ensures is { Sends 5 (circuit_left (conversion (width_of e) (width_of f)) (parts a) (parts a) result) lent.old lent.new }
    ensures below { InRange (modulus_of f) result }
{
    let x = four_times(e, a);
    let q = quotient(x, lent);
    let s = compose_bits(f, q, 0, 2, lent);
    settle(e, f, x, s)
}
