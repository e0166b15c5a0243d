// The checks of a batch, in the order of 02. The three runs of figures stay slices side by side: C lends them so.
ghost use Rattle.std.specs.Prelude.{◌≡◌, length};
ghost use Rattle.ring.specs.Rings.{width_of};
ghost use Rattle.gate.specs.Lent.{at_entry};
ghost use Rattle.gate.specs.Places.{three};
ghost use Rattle.machine.specs.Checks.{first_met};
ghost use Rattle.order.specs.Answers.{verdict_of};
ghost use Rattle.attempt.specs.Lengths.{lengths_told};
ghost use Rattle.batch.specs.Batch.{figure_checks, not_count};
ghost use Rattle.batch.specs.Calls.{batch_ring};

use attempt::{Lengths, any_outside, room};
use machine::Refusal;
use order::Positions;
use ring::Ring;

// Figures of a batch, one a bit of a word: a length to compare, and a count of items in u64, which `as` makes of 64 with nothing lost.
const COUNT: usize = 64;

// Whether one of three runs is not 64 long.
pub fn not_count(n0: usize, n1: usize, n2: usize) -> bool
    ensures { result ≡ not_count (three n0 n1 n2) }
{
    [n0, n1, n2] != [COUNT; 3]
}

// The ring of a batch: 13 has none. 02 names its two widths, which `Ring::of_width` with one taken away would not show.
#[tactic(auto, unfolding(crate::specs::Calls::batch_ring))]
pub fn batch_ring(e: u64) -> Option<Ring>
    ensures { result ≡ batch_ring e }
{
    match e {
        Ring::WIDTH_31 => Some(Ring::R31),
        Ring::WIDTH_61 => Some(Ring::R61),
        _ => None,
    }
}

// Checks 7, 10, 8, 9 and 11, on the figures and on the lengths of mask tapes and channels.
pub fn figures_why(
    r: Ring,
    l: u64,
    a0: &[u64],
    a1: &[u64],
    a2: &[u64],
    len: Lengths,
) -> Result<(), Refusal>
    requires { (length a0.now ≡ 64) × (length a1.now ≡ 64) × (length a2.now ≡ 64) }
    ensures { verdict_of result ≡ first_met (figure_checks (width_of r) l (at_entry a0 a1 a2) (lengths_told len)) }
{
    let most = r.width() - 2;
    if !((1 <= l) & (l <= most)) {
        return Err(Refusal::OutOfRange);
    }
    let p = r.modulus();
    if any_outside(p, COUNT as u64, a0, a1, a2) {
        return Err(Refusal::BadItem);
    }
    let start = Positions {
        masks: 0,
        channels: 0,
        dealer: 0,
    };
    room(start, 3 * l + 1, len)
}
