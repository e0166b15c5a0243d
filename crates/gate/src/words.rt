// The words of a gate, each from what its party holds and nothing else.
// Width and modulus go on as two numbers, found once before the loop: a ring looked up in each gate costs 15 in 100.
// A party's own sub-share and the next one's go as two numbers: a pair of them would be made at the call and taken apart in the line.
ghost use Rattle.std.specs.Prelude.{◌≡◌, ◌+◌, ◌*◌, ◌%◌, ◌<◌, ◌≤◌, ◌^◌};
ghost use Rattle.ring.specs.Modular.{Cong};
ghost use Rattle.ring.specs.Rings.{Sized};
ghost use Rattle.gate.specs.Gates.{gated, mask, word};
ghost use Rattle.gate.specs.Places.{InRange, PairBelow, pair, parts, sharing, three};
ghost use Rattle.gate.specs.Words.{BitWord, BitWords, GateWords, Sliced};

use crate::sharing::Sharing;
use ring::{add_mod, mul_add_mod, reduce_once, reduce_short};

// t_(i+1) - t_i modulo p, not reduced.
fn mask_word(p: u64, t: u64, tf: u64) -> u64
    requires room { p ≤ 2 ^ 63 }
    requires items { PairBelow p (pair t tf) }
    ensures is { Cong p result (mask p (pair t tf)) }
    ensures below { result < p + p }
{
    tf + (p - t)
}

// z_i modulo p = 2^e - 1, from the sub-shares i and i + 1 of x, of y and of the items.
#[tactic(auto, using(ring::proofs::RangeLaw::sized_lt))]
fn ring_word(e: u64, p: u64, x: u64, xf: u64, y: u64, yf: u64, t: u64, tf: u64) -> u64
    requires sized { Sized e p }
    requires left { PairBelow p (pair x xf) }
    requires right { PairBelow p (pair y yf) }
    requires items { PairBelow p (pair t tf) }
    ensures is { result ≡ word p (pair x xf) (pair y yf) (pair t tf) }
    ensures below { result < p }
{
    let sum = add_mod(e, p, y, yf);
    mul_add_mod(e, p, x, sum, xf, y, mask_word(p, t, tf))
}

// z_i of bits, from the same; of words it is that of each of their bits.
fn bit_word(x: u64, xf: u64, y: u64, yf: u64, t: u64, tf: u64) -> u64
    ensures figures { Sliced x xf y yf t tf result }
    ensures bits { PairBelow 2 (pair x xf) → PairBelow 2 (pair y yf) → PairBelow 2 (pair t tf) → BitWord x xf y yf t tf result }
{
    (x & (y ^ yf)) ^ (xf & y) ^ t ^ tf
}

// z_0, z_1 and z_2 modulo p = 2^e - 1. Here and below the places are written out, not mapped: each party's word needs its own
// sub-share and the next one's, of three sharings.
pub fn ring_words(e: u64, p: u64, x: Sharing, y: Sharing, t: Sharing) -> Sharing
    requires sized { Sized e p }
    requires left { InRange p x }
    requires right { InRange p y }
    requires items { InRange p t }
    ensures is { result ≡ sharing (gated p (parts x) (parts y) (parts t)) }
    ensures below { InRange p result }
{
    Sharing {
        s0: ring_word(e, p, x.s0, x.s1, y.s0, y.s1, t.s0, t.s1),
        s1: ring_word(e, p, x.s1, x.s2, y.s1, y.s2, t.s1, t.s2),
        s2: ring_word(e, p, x.s2, x.s0, y.s2, y.s0, t.s2, t.s0),
    }
}

// z_0, z_1 and z_2 of bits; of words they are those of each of their bits. Apart from `ring_words`: the formula as a closure would
// take six numbers and its contract.
pub fn bit_words(x: Sharing, y: Sharing, t: Sharing) -> Sharing
    ensures figures { GateWords x y t result }
    ensures bits { InRange 2 x → InRange 2 y → InRange 2 t → BitWords x y t result }
{
    Sharing {
        s0: bit_word(x.s0, x.s1, y.s0, y.s1, t.s0, t.s1),
        s1: bit_word(x.s1, x.s2, y.s1, y.s2, t.s1, t.s2),
        s2: bit_word(x.s2, x.s0, y.s2, y.s0, t.s2, t.s0),
    }
}

// z_i modulo p = 2^e - 1, from its products and the items.
#[tactic(auto, using(ring::proofs::RangeLaw::sized_lt))]
fn masked(e: u64, p: u64, products: u64, t: u64, tf: u64) -> u64
    requires sized { Sized e p }
    requires products { products < 5 * p }
    requires items { PairBelow p (pair t tf) }
    ensures is { result ≡ (products + mask p (pair t tf)) % p }
    ensures below { result < p }
{
    let d = mask_word(p, t, tf);
    reduce_short(e, p, products + d)
}

// z_i where its products are 0.
#[tactic(auto, using(ring::proofs::RangeLaw::sized_lt))]
fn mask_alone(e: u64, p: u64, t: u64, tf: u64) -> u64
    requires sized { Sized e p }
    requires items { PairBelow p (pair t tf) }
    ensures is { result ≡ mask p (pair t tf) % p }
    ensures below { result < p }
{
    reduce_once(e, p, mask_word(p, t, tf))
}

// z_0, z_1 and z_2 modulo p = 2^e - 1, of a bit at place 0 with a bit at place 1. Not mapped: only z_0 has a product.
pub fn words_of_bits(e: u64, p: u64, b0: u64, b1: u64, t: Sharing) -> Sharing
    requires sized { Sized e p }
    requires left { b0 < 2 }
    requires right { b1 < 2 }
    requires items { InRange p t }
    ensures is { result ≡ sharing (gated p (three b0 0 0) (three 0 b1 0) (parts t)) }
    ensures below { InRange p result }
{
    Sharing {
        s0: masked(e, p, b0 * b1, t.s0, t.s1),
        s1: mask_alone(e, p, t.s1, t.s2),
        s2: mask_alone(e, p, t.s2, t.s0),
    }
}

// z_0, z_1 and z_2 modulo p = 2^e - 1, of x, which need not be reduced, with a bit at place 2. Not mapped: z_0 has no product. The last
// word is made first: the other way round the compiler keeps a counter of composing's loop in memory, a tenth of that order's time.
#[tactic(auto, using(crate::proofs::WordLaw::bit_times))]
pub fn words_by_bit(e: u64, p: u64, x: Sharing, b2: u64, t: Sharing) -> Sharing
    requires sized { Sized e p }
    requires left { InRange (2 * p + 2) x }
    requires right { b2 < 2 }
    requires items { InRange p t }
    ensures is { result ≡ sharing (gated p (parts x) (three 0 0 b2) (parts t)) }
    ensures below { InRange p result }
{
    let s2 = masked(e, p, (x.s2 + x.s0) * b2, t.s2, t.s0);
    let s1 = masked(e, p, x.s1 * b2, t.s1, t.s2);
    let s0 = mask_alone(e, p, t.s0, t.s1);
    Sharing { s0, s1, s2 }
}
