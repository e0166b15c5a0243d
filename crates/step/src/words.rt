// One order on a record in words, which is changed where it stands. The seven runs stay slices side by side: C lends them so.
ghost use Rattle.std.specs.Prelude.{◌≡◌};
ghost use Rattle.gate.specs.Lent.{at_entry_mut, at_exit};
ghost use Rattle.machine.specs.Registers.{sound};
ghost use Rattle.machine.specs.Step.{step};
ghost use Rattle.layout.specs.Layout.{Says};
ghost use Rattle.step.specs.Lent.{TapesStand, tapes_at};
ghost use Rattle.step.specs.Words.{Reports};

use crate::decide;
use crate::found::{Found, other, source};
use layout::{CHANNELS_AT, DEALER_AT, MASKS_AT, register_at, write_change};
use machine::{Answer, Machine, Order};
use order::{Positions, Sources, answer};

// The step of 83 words that say a record, sound or not as `sure` tells: its callers know that already, and a refusal for it is the
// order's, after which the words stand.
#[tactic(auto, using(layout::proofs::SaysLaw::says_length))]
pub fn step_words(
    sure: bool,
    o: Order,
    record: &mut [u64],
    m0: &[u64],
    m1: &[u64],
    m2: &[u64],
    dealer: &[u64],
    c0: &mut [u64],
    c1: &mut [u64],
    c2: &mut [u64],
) -> Answer
    requires { (m : Machine) × Says «record».old m × (sure ≡ sound m) }
    ensures is { (m : Machine) → Says «record».old m → sure ≡ sound m
        → Reports «record».new result (at_exit c0 c1 c2) (step o m (tapes_at m0 m1 m2 dealer) (at_entry_mut c0 c1 c2)) }
    ensures lent { TapesStand m0 m1 m2 dealer }
{
    let found = Found {
        sources: Sources {
            sound: sure,
            a: register_at(record, source(o)),
            b: register_at(record, other(o)),
        },
        at: Positions {
            masks: record[MASKS_AT],
            channels: record[CHANNELS_AT],
            dealer: record[DEALER_AT],
        },
    };
    let k = decide(found, o, m0, m1, m2, dealer, c0, c1, c2);
    write_change(k, record);
    answer(k)
}
