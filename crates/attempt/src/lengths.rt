// How long the runs are that an order is lent, which stay slices side by side: C lends them so. Lengths are u64, to be held against the
// positions of C's record; no `From` leads from usize to u64, and `as` is shown to lose nothing.
ghost use Rattle.std.specs.Prelude.{◌≡◌};
ghost use Rattle.gate.specs.Lent.{at_entry};
ghost use Rattle.order.specs.Attempts.{lengths_of};
ghost use Rattle.attempt.specs.Lengths.{lengths_told};

// Of the mask tapes and of the channels.
#[derive(Clone, Copy)]
pub struct Lengths {
    pub m0: u64,
    pub m1: u64,
    pub m2: u64,
    pub c0: u64,
    pub c1: u64,
    pub c2: u64,
}

impl Lengths {
    pub fn of(m0: &[u64], m1: &[u64], m2: &[u64], c0: &[u64], c1: &[u64], c2: &[u64]) -> Lengths
        ensures { lengths_told result ≡ lengths_of (at_entry m0 m1 m2) (at_entry c0 c1 c2) }
    {
        Lengths {
            m0: m0.len() as u64,
            m1: m1.len() as u64,
            m2: m2.len() as u64,
            c0: c0.len() as u64,
            c1: c1.len() as u64,
            c2: c2.len() as u64,
        }
    }
}
