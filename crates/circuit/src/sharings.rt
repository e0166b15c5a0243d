// The sharings that the orders start from.
ghost use Rattle.std.specs.Prelude.{◌≡◌};
ghost use Rattle.ring.specs.Rings.{modulus_of};
ghost use Rattle.gate.specs.Places.{InRange};
ghost use Rattle.circuit.specs.Sharings.{four_times, zeros};

use gate::Sharing;
use ring::Ring;

// No bits and no sum yet. Three zeros are written out here alone: a map needs a sharing to start from.
pub fn zeros() -> Sharing
    ensures { result ≡ zeros }
{
    Sharing {
        s0: 0,
        s1: 0,
        s2: 0,
    }
}

// x_i = 4 a_i modulo p: document 000, Schemes 2 and 3, step 1.
pub fn four_times(r: Ring, a: Sharing) -> Sharing
    requires { InRange (modulus_of r) a }
    ensures { result ≡ four_times (modulus_of r) a }
{
    a.map(|s| r.four_times(s))
}
