// Sums, differences, products, remainders and four times, in a ring. They stay beside `modular`'s, which loops call with a width and a
// modulus that they have: callers of one product have a ring alone.
ghost use Rattle.std.specs.Prelude.{◌≡◌, ◌+◌, ◌*◌, ◌%◌, ◌<◌, ◌^◌};
ghost use Rattle.ring.specs.Modular.{diff};
ghost use Rattle.ring.specs.Rings.{modulus_of, u};

use crate::modular::{add_mod, mul_mod, reduce_multiple, reduce_short, reduce_word, sub_mod};
use crate::rings::Ring;

impl Ring {
    // a + b modulo p.
    pub fn add(self, a: u64, b: u64) -> u64
        requires left { a < modulus_of self }
        requires right { b < modulus_of self }
        ensures is { result ≡ (a + b) % modulus_of self }
        ensures below { result < modulus_of self }
    {
        add_mod(self.width(), self.modulus(), a, b)
    }

    // a - b modulo p.
    pub fn sub(self, a: u64, b: u64) -> u64
        requires left { a < modulus_of self }
        requires right { b < modulus_of self }
        ensures is { result ≡ diff (modulus_of self) a b }
        ensures below { result < modulus_of self }
    {
        sub_mod(self.width(), self.modulus(), a, b)
    }

    // a × b modulo p.
    pub fn mul(self, a: u64, b: u64) -> u64
        requires left { a < modulus_of self }
        requires right { b < modulus_of self }
        ensures is { result ≡ (a * b) % modulus_of self }
        ensures below { result < modulus_of self }
    {
        mul_mod(self.width(), self.modulus(), a, b)
    }

    // s modulo p, of a sum of up to seven numbers below p.
    pub fn reduce_sum(self, s: u64) -> u64
        requires { s < 7 * modulus_of self }
        ensures is { result ≡ s % modulus_of self }
        ensures below { result < modulus_of self }
    {
        reduce_short(self.width(), self.modulus(), s)
    }

    // a modulo p, of any word.
    pub fn reduce(self, a: u64) -> u64
        ensures is { result ≡ a % modulus_of self }
        ensures below { result < modulus_of self }
    {
        reduce_word(self.width(), self.modulus(), a)
    }

    // Document 000, Schemes 2 and 3, step 1: 2^u times a, then modulo p. It is the turn of the e bits of a left by two: `FourTimes`.
    pub fn four_times(self, a: u64) -> u64
        requires { a < modulus_of self }
        ensures is { result ≡ 2 ^ u * a % modulus_of self }
        ensures below { result < modulus_of self }
    {
        let multiple = a << Ring::U;
        reduce_multiple(self.width(), self.modulus(), multiple)
    }
}
