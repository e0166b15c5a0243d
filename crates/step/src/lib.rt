// The machine's step: one order on a record, with the tapes and channels that are lent, which stay slices side by side: C lends them
// so, one by one.
#![tactic(auto)]

mod found;
mod ways;
mod words;

ghost use Rattle.std.specs.Prelude.{◌≡◌};
ghost use Rattle.gate.specs.Lent.{at_entry_mut, at_exit};
ghost use Rattle.machine.specs.Step.{step};
ghost use Rattle.order.specs.Answers.{reported};
ghost use Rattle.order.specs.Changes.{Changes};
ghost use Rattle.step.specs.Found.{found_in};
ghost use Rattle.step.specs.Lent.{TapesStand, tapes_at};

use crate::ways::{Way, way_of};
use attempt::attempt;
use exchange::{deal, open};
pub use found::{Found, other, source};
use machine::{Machine, Order, Refusal};
use order::{Change, Outcome, Positions, Sources, apply};
pub use words::step_words;

// What an order does to a record, by what it has found there. One `match`, since each way takes other fields and other runs.
pub fn decide(
    found: Found,
    o: Order,
    m0: &[u64],
    m1: &[u64],
    m2: &[u64],
    dealer: &[u64],
    c0: &mut [u64],
    c1: &mut [u64],
    c2: &mut [u64],
) -> Result<Change, Refusal>
    requires { (m : Machine) × (found ≡ found_in m o) }
    ensures { (m : Machine) → found ≡ found_in m o → Changes m result (at_exit c0 c1 c2) (step o m (tapes_at m0 m1 m2 dealer) (at_entry_mut c0 c1 c2)) }
{
    let s = found.sources;
    let at = found.at;
    match way_of(s, o) {
        Way::Deal { d, e, v } => deal(s.sound, at.dealer, d, e, v, dealer),
        Way::Attempt(d, t) => attempt(at, d, t, m0, m1, m2, c0, c1, c2),
        Way::Open { x } => open(s, x, at.channels, c0, c1, c2),
    }
}

// 01: every order gets an answer on every record, tape and channel; a refusal changes nothing.
pub fn step(
    m: Machine,
    o: Order,
    m0: &[u64],
    m1: &[u64],
    m2: &[u64],
    dealer: &[u64],
    c0: &mut [u64],
    c1: &mut [u64],
    c2: &mut [u64],
) -> Outcome
    ensures is { reported result (at_exit c0 c1 c2) ≡ step o m (tapes_at m0 m1 m2 dealer) (at_entry_mut c0 c1 c2) }
    ensures lent { TapesStand m0 m1 m2 dealer }
{
    let found = Found {
        sources: Sources {
            sound: m.is_sound(),
            a: m.register(source(o)),
            b: m.register(other(o)),
        },
        at: Positions {
            masks: m.masks_at,
            channels: m.channels_at,
            dealer: m.dealer_at,
        },
    };
    apply(m, decide(found, o, m0, m1, m2, dealer, c0, c1, c2))
}
