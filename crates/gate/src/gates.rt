// The words of a gate go to the channels: each party's to its own.
ghost use Rattle.gate.specs.Places.{Room, Sent};

use crate::sharing::Sharing;

// One word a channel, to its head. The channels are three slices, not one value: C lends them so, one by one.
pub fn send(z: Sharing, c0: &mut [u64], c1: &mut [u64], c2: &mut [u64])
    requires { Room c0.old c1.old c2.old }
    ensures { Sent z c0.old c1.old c2.old c0.new c1.new c2.new }
{
    c0[0] = z.s0;
    c1[0] = z.s1;
    c2[0] = z.s2;
}
