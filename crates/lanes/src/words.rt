// Planes of the total.
ghost use Rattle.std.specs.Prelude.{◌≡◌, ◌<◌};
ghost use Rattle.planes.specs.Planes.{Whole, planes_at, with_planes, words_xor};

use gate::Sharing;
use planes::Planes;

// Plane j of the total, in place of the carries: x, carries and the last running carry.
pub fn total_in(x: &Planes, s: &mut Planes, j: usize, last: Sharing)
    requires { j < 64 }
    ensures is { s.new ≡ with_planes s.old j (words_xor (words_xor (planes_at j x.now) (planes_at j s.old)) last) }
    ensures whole { Whole s.old }
{
    let b = x.at(j);
    let u = s.at(j);
    s.store(j, b ^ u ^ last);
}
