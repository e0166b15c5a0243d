// Order 1: a number comes in from the dealer. Lengths and positions are u64 as in C's record, and each `as` is shown to lose nothing:
// `try_from` would bring a refusal that cannot happen.
ghost use Rattle.std.specs.Prelude.{◌≡◌, ◌<◌, List, ℕ, IfOk, drop, get_or, length};
ghost use Rattle.ring.specs.Rings.{modulus_of};
ghost use Rattle.gate.specs.Places.{Place};
ghost use Rattle.machine.specs.Checks.{first_met};
ghost use Rattle.machine.specs.Step.{dealt_shares, step};
ghost use Rattle.order.specs.Answers.{verdict_of};
ghost use Rattle.order.specs.Changes.{Changes};
ghost use Rattle.exchange.specs.Exchanges.{Dealing, dealt_register, own_checks, tape_checks};

use gate::Sharing;
use machine::{MILLION, Machine, Order, Refusal, Register};
use order::{Change, begin, too_few};
use ring::Ring;

// Checks 8 and 9: the next two items of a tape, from a position on.
fn two_items(tape: &[u64], at: u64) -> Result<(u64, u64), Refusal>
    ensures refusal { verdict_of result ≡ first_met (tape_checks (length tape.now) at) }
    ensures found { IfOk result (λ r. (r.0 ≡ get_or (drop at tape.now) 0 0) × (r.1 ≡ get_or (drop at tape.now) 1 0)) }
{
    let n = tape.len() as u64;
    if MILLION < n {
        return Err(Refusal::BadLength);
    }
    if too_few(n, at, 2) {
        return Err(Refusal::TapeShort);
    }
    let i = at as usize;
    Ok((tape[i], tape[i + 1]))
}

// Sub-shares r0, r1, v - r0 - r1.
fn shared(r: Ring, v: u64, r0: u64, r1: u64) -> Register
    requires number { v < modulus_of r }
    requires first { r0 < modulus_of r }
    requires second { r1 < modulus_of r }
    ensures { result ≡ Register.Number r (dealt_shares (modulus_of r) v r0 r1) }
{
    let s2 = r.sub(r.sub(v, r0), r1);
    Register::Number(r, Sharing { s0: r0, s1: r1, s2 })
}

// Checks 5 and 7 to 10, and the register that a deal leaves.
fn dealt(at: u64, e: u64, v: u64, dealer: &[u64]) -> Result<Register, Refusal>
    ensures refusal { verdict_of result ≡ first_met (own_checks at e v (length dealer.now) (drop at dealer.now)) }
    ensures left { IfOk result (λ a. a ≡ dealt_register e v (get_or (drop at dealer.now) 0 0) (get_or (drop at dealer.now) 1 0)) }
{
    let r = Ring::of_width(e).ok_or(Refusal::NoRing)?;
    let p = r.modulus();
    if p <= v {
        return Err(Refusal::OutOfRange);
    }
    let (r0, r1) = two_items(dealer, at)?;
    if (p <= r0) | (p <= r1) {
        return Err(Refusal::BadItem);
    }
    Ok(shared(r, v, r0, r1))
}

// Order 1. It has no source, so it takes soundness and its position alone, and no `Sources`.
pub fn deal(sound: bool, at: u64, d: u64, e: u64, v: u64, dealer: &[u64]) -> Result<Change, Refusal>
    ensures { (m : Machine) → Dealing m sound at → (M c : Place → List ℕ)
        → Changes m result c (step (Order.Deal d e v) m (record { masks = M; dealer = dealer.now }) c) }
{
    begin(sound, &[d])?;
    let register = dealt(at, e, v, dealer)?;
    Ok(Change::Stored {
        d,
        register,
        gates: 0,
        items: 2,
    })
}
