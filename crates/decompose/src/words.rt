// Words of the three places: single bits, and bits stored.
ghost use Rattle.std.specs.Prelude.{◌≡◌, ◌+◌, ◌*◌, ◌<◌, ◌^◌};
ghost use Rattle.gate.specs.Places.{InRange};
ghost use Rattle.decompose.specs.Words.{bits_at, finished, stored, upper};

use gate::Sharing;
use ring::bit;

// Bit j of each word.
pub fn bits(w: Sharing, j: u64) -> Sharing
    requires { j < 64 }
    ensures is { result ≡ bits_at w j }
    ensures below { InRange 2 result }
{
    w.map(|w| bit(w, j))
}

// A word that ends below bit k, with bit k.
fn store_bit(w: u64, b: u64, k: u64) -> u64
    requires shift { k < 64 }
    requires word { w < 2 ^ k }
    requires bit { b < 2 }
    ensures is { result ≡ w + b * 2 ^ k }
    ensures below { result < 2 ^ (k + 1) }
{
    w + (b << k)
}

// Shared bits stored as bit k.
pub fn store(w: Sharing, b: Sharing, k: u64) -> Sharing
    requires shift { k < 64 }
    requires words { InRange (2 ^ k) w }
    requires bits { InRange 2 b }
    ensures is { result ≡ stored w b k }
    ensures below { InRange (2 ^ (k + 1)) result }
{
    w.zip(b, |w, b| store_bit(w, b, k))
}

// The bits of a total from 2 up, l of them, with the carries of the increment.
fn upper_bits(total: u64, raising: u64, l: u64) -> u64
    requires { l < 64 }
    ensures is { result ≡ upper total raising l }
    ensures below { result < 2 ^ l }
{
    ((total >> 2) ^ raising) & ((1 << l) - 1)
}

// The result's words: as in storing, the zip is all that is common, and it is one function already.
pub fn finish(total: Sharing, raising: Sharing, l: u64) -> Sharing
    requires { l < 64 }
    ensures is { result ≡ finished total raising l }
    ensures below { InRange (2 ^ l) result }
{
    total.zip(raising, |total, raising| upper_bits(total, raising, l))
}
