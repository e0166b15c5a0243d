// The sub-shares of one number or bit, one a place: 01's register holds one.
ghost use Rattle.std.specs.Prelude.{◌≡◌, bit_xor};
ghost use Rattle.gate.specs.Places.{shares_below};

use std::ops::BitXor;

// How far its sub-shares go, contracts say (`InRange`): in one order they are below 2, p, 2p, 2p + 2 or 4p + 4 in turn, and a type for
// each would only move that fact from the contracts into a conversion at every step.
#[derive(Clone, Copy)]
pub struct Sharing {
    pub s0: u64,
    pub s1: u64,
    pub s2: u64,
}

impl Sharing {
    // The same at each place.
    pub fn map<F: Fn(u64) -> u64>(self, f: F) -> Sharing
        requires zero { F.pre f self.s0 }
        requires one { F.pre f self.s1 }
        requires two { F.pre f self.s2 }
        ensures zero { F.post f self.s0 result.s0 }
        ensures one { F.post f self.s1 result.s1 }
        ensures two { F.post f self.s2 result.s2 }
    {
        let s0 = f(self.s0);
        let s1 = f(self.s1);
        let s2 = f(self.s2);
        Sharing { s0, s1, s2 }
    }

    // The same of two at each place.
    pub fn zip<F: Fn(u64, u64) -> u64>(self, other: Sharing, f: F) -> Sharing
        requires zero { F.pre f self.s0 other.s0 }
        requires one { F.pre f self.s1 other.s1 }
        requires two { F.pre f self.s2 other.s2 }
        ensures zero { F.post f self.s0 other.s0 result.s0 }
        ensures one { F.post f self.s1 other.s1 result.s1 }
        ensures two { F.post f self.s2 other.s2 result.s2 }
    {
        let s0 = f(self.s0, other.s0);
        let s1 = f(self.s1, other.s1);
        let s2 = f(self.s2, other.s2);
        Sharing { s0, s1, s2 }
    }

    // Whether each sub-share is below m. It branches on sub-shares, one after the other: of a secret one check 1 alone may ask it,
    // whose outcome is public (docs/DECISIONS.md).
    pub fn is_below(self, m: u64) -> bool
        ensures { result ≡ shares_below m self }
    {
        if m <= self.s0 {
            return false;
        }
        if m <= self.s1 {
            return false;
        }
        self.s2 < m
    }
}

// Place by place.
impl BitXor for Sharing {
    type Output = Sharing;

    ghost bitxor_gives = { λ a b z. z ≡ record { s0 = bit_xor a.s0 b.s0; s1 = bit_xor a.s1 b.s1; s2 = bit_xor a.s2 b.s2 } };

    fn bitxor(self, other: Sharing) -> Sharing {
        self.zip(other, |a, b| a ^ b)
    }
}
