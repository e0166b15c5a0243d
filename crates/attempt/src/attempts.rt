// Orders 2 to 8 once the record has decided: checks 8, 9, 11 and 10, and only then the gates.
// The six runs stay slices side by side: C lends them so, one by one. Positions are u64 as in C's record, and each `as usize` is shown
// to lose nothing: `try_from` would bring a refusal that cannot happen.
ghost use Rattle.std.specs.Prelude.{Ok, ◌≡◌, ◌+◌};
ghost use Rattle.gate.specs.Lent.{at_entry, at_entry_mut, at_exit};
ghost use Rattle.circuit.specs.Lent.{Long};
ghost use Rattle.machine.specs.Checks.{first_met, gate_checks};
ghost use Rattle.order.specs.Answers.{verdict_of};
ghost use Rattle.order.specs.Attempts.{attempted, tried};
ghost use Rattle.order.specs.Changes.{Changes};
ghost use Rattle.order.specs.Sources.{GatesAt, public_at};
ghost use Rattle.order.specs.Tasks.{Fit, Ready, Seated, cost_of};
ghost use Rattle.attempt.specs.Lengths.{lengths_told};

use crate::items::bad_items;
use crate::lengths::Lengths;
use crate::words::words;
use machine::{Machine, Refusal};
use order::{Change, Cost, Positions, Prepared, Task, too_few, uneven};

// Checks 8, 9 and 11, for n gates.
pub fn room(at: Positions, n: u64, len: Lengths) -> Result<(), Refusal>
    ensures { verdict_of result ≡ first_met (gate_checks n (public_at at) (lengths_told len)) }
{
    if uneven(len.m0, len.m1, len.m2) | uneven(len.c0, len.c1, len.c2) {
        return Err(Refusal::BadLength);
    }
    if too_few(len.m0, at.masks, n) {
        return Err(Refusal::TapeShort);
    }
    if too_few(len.c0, at.channels, n) {
        return Err(Refusal::ChannelShort);
    }
    Ok(())
}

// A task whose lengths are checked, from the record's positions on.
fn run(
    at: Positions,
    d: u64,
    t: Task,
    k: Cost,
    m0: &[u64],
    m1: &[u64],
    m2: &[u64],
    c0: &mut [u64],
    c1: &mut [u64],
    c2: &mut [u64],
) -> Result<Change, Refusal>
    requires fit { Fit t }
    requires cost { k ≡ cost_of t }
    requires masks { Long (at.masks + (k.bits + k.ring)) m0.now m1.now m2.now }
    requires room { Long (at.channels + (k.bits + k.ring)) c0.old c1.old c2.old }
    ensures { (m : Machine) → GatesAt at m → Seated m d
        → Changes m result (at_exit c0 c1 c2) (tried t d m (at_entry m0 m1 m2) (at_entry_mut c0 c1 c2)) }
{
    let from = at.masks as usize;
    let t0 = &m0[from..];
    let t1 = &m1[from..];
    let t2 = &m2[from..];
    if bad_items(k, t0, t1, t2) {
        return Err(Refusal::BadItem);
    }
    let ch = at.channels as usize;
    let z = words(t, t0, t1, t2, &mut c0[ch..], &mut c1[ch..], &mut c2[ch..]);
    let gates = k.bits + k.ring;
    Ok(Change::Stored {
        d,
        register: t.left(z),
        gates,
        items: 0,
    })
}

// A task, with the checks of lengths.
fn perform(
    at: Positions,
    d: u64,
    t: Task,
    m0: &[u64],
    m1: &[u64],
    m2: &[u64],
    c0: &mut [u64],
    c1: &mut [u64],
    c2: &mut [u64],
) -> Result<Change, Refusal>
    requires fit { Fit t }
    ensures { (m : Machine) → GatesAt at m → Seated m d
        → Changes m result (at_exit c0 c1 c2) (attempted (Ok (Prepared.Gates t)) d m (at_entry m0 m1 m2) (at_entry_mut c0 c1 c2)) }
{
    let k = t.cost();
    room(at, k.bits + k.ring, Lengths::of(m0, m1, m2, c0, c1, c2))?;
    run(at, d, t, k, m0, m1, m2, c0, c1, c2)
}

// Orders 2 to 8, after what the record decides.
pub fn attempt(
    at: Positions,
    d: u64,
    t: Result<Prepared, Refusal>,
    m0: &[u64],
    m1: &[u64],
    m2: &[u64],
    c0: &mut [u64],
    c1: &mut [u64],
    c2: &mut [u64],
) -> Result<Change, Refusal>
    requires { (m : Machine) × Ready m d t }
    ensures { (m : Machine) → GatesAt at m → Ready m d t
        → Changes m result (at_exit c0 c1 c2) (attempted t d m (at_entry m0 m1 m2) (at_entry_mut c0 c1 c2)) }
{
    match t? {
        Prepared::Local(r) => Ok(Change::Stored {
            d,
            register: r,
            gates: 0,
            items: 0,
        }),
        Prepared::Gates(g) => perform(at, d, g, m0, m1, m2, c0, c1, c2),
    }
}
