// The majority of bits for 64 figures at once: bit k of each word is figure k's.
ghost use Rattle.planes.specs.Planes.{MajorityWords};

use gate::{Sharing, bit_words};

// The words of a majority.
pub fn majority_words(x: Sharing, y: Sharing, c: Sharing, t: Sharing) -> Sharing
    ensures { MajorityWords x y c t result }
{
    bit_words(x ^ c, y ^ c, t)
}
