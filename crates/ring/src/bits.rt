// Single bits of words.
ghost use Rattle.std.specs.Prelude.{◌≡◌, ◌<◌};
ghost use Rattle.ring.specs.Rings.{bit_of};

// Bit j of a word, the one of weight 2^j.
pub fn bit(w: u64, j: u64) -> u64
    requires { j < 64 }
    ensures is { result ≡ bit_of w j }
    ensures below { result < 2 }
{
    (w >> j) & 1
}
