// What is public of a register, its sub-shares and its value.
ghost use Rattle.std.specs.Prelude.{true, ◌≡◌};
ghost use Rattle.ring.specs.Rings.{modulus};
ghost use Rattle.machine.specs.Checks.{is_bits, is_empty};
ghost use Rattle.machine.specs.Registers.{count_at, kind_of, ring_at, shares_of, sound_register, width_at};
ghost use Rattle.machine.specs.Step.{value_of};

use crate::registers::Register;
use circuit::zeros;
use gate::Sharing;
use ring::Ring;

impl Register {
    pub fn is_empty(self) -> bool
        ensures { result ≡ is_empty (kind_of self) }
    {
        matches!(self, Register::Empty)
    }

    pub fn is_bits(self) -> bool
        ensures { result ≡ is_bits (kind_of self) }
    {
        matches!(self, Register::Bits(_, _))
    }

    // The ring of a number, else R13. No order asks it: their checks match on the register and have its ring from there.
    // Each match here and below answers another field, so they are no twins.
    pub fn ring(self) -> Ring
        ensures { result ≡ ring_at (kind_of self) }
    {
        match self {
            Register::Number(r, _) => r,
            Register::Empty | Register::Bits(_, _) => Ring::R13,
        }
    }

    // e of a number, else 0.
    pub fn width(self) -> u64
        ensures { result ≡ width_at (kind_of self) }
    {
        match self {
            Register::Number(r, _) => r.width(),
            Register::Empty | Register::Bits(_, _) => 0,
        }
    }

    // p of a number, else 0.
    #[tactic(auto, unfolding(ring::specs::Rings::modulus))]
    pub fn modulus(self) -> u64
        ensures { result ≡ modulus (width_at (kind_of self)) }
    {
        match self {
            Register::Number(r, _) => r.modulus(),
            Register::Empty | Register::Bits(_, _) => 0,
        }
    }

    // l of bits, else 0.
    pub fn count(self) -> u64
        ensures { result ≡ count_at (kind_of self) }
    {
        match self {
            Register::Bits(l, _) => l,
            Register::Empty | Register::Number(_, _) => 0,
        }
    }

    // The sub-shares, zeros where there are none.
    pub fn shares(self) -> Sharing
        ensures { result ≡ shares_of self }
    {
        match self {
            Register::Empty => zeros(),
            Register::Number(_, x) | Register::Bits(_, x) => x,
        }
    }

    // The total of a number, the exclusive or of bits: of the three places, so it is no map by place.
    pub fn value(self) -> u64
        requires { sound_register self ≡ true }
        ensures { result ≡ value_of self }
    {
        match self {
            Register::Empty => 0,
            Register::Number(r, x) => r.reduce_sum(x.s0 + x.s1 + x.s2),
            Register::Bits(_, x) => x.s0 ^ x.s1 ^ x.s2,
        }
    }
}
