// The checks that orders share. Kinds are checked as the register is read.
ghost use Rattle.std.specs.Prelude.{[], ◌∷◌, ◌++◌, ◌≡◌, ◌+◌, ltb, IfOk};
ghost use Rattle.std.specs.List.{list_any};
ghost use Rattle.gate.specs.Places.{three};
ghost use Rattle.machine.specs.Checks.{a_number, first_met, is_empty, two_numbers, uneven};
ghost use Rattle.machine.specs.Registers.{kind_of};
ghost use Rattle.order.specs.Answers.{verdict_of};
ghost use Rattle.order.specs.Attempts.{begin_checks, some_bits};

use crate::sources::Sources;
use gate::Sharing;
use machine::{MILLION, Refusal, Register};
use ring::Ring;

// Whether a register number is above 15.
fn any_above15(names: &[u64]) -> bool
    ensures { result ≡ list_any (λ k. ltb 15 k) names.now }
{
    names.iter().any(|k| 15 < *k)
}

// Checks 1 and 2, of an order that names these registers. A deal, which has no sources, calls it too: so it takes no `Sources`.
pub fn begin(sound: bool, names: &[u64]) -> Result<(), Refusal>
    ensures { verdict_of result ≡ first_met (begin_checks sound names.now) }
{
    if !sound {
        return Err(Refusal::Unsound);
    }
    if any_above15(names) {
        return Err(Refusal::NoRegister);
    }
    Ok(())
}

// Checks 3 and 4 of a source that must be a number: its ring and its sub-shares.
#[tactic(auto, unfolding(machine::specs::Checks::first_met))]
fn a_number(x: Register) -> Result<(Ring, Sharing), Refusal>
    ensures refusal { verdict_of result ≡ first_met (a_number (kind_of x)) }
    ensures found { IfOk result (λ n. x ≡ Register.Number n.0 n.1) }
{
    match x {
        Register::Empty => Err(Refusal::EmptySource),
        Register::Number(r, s) => Ok((r, s)),
        Register::Bits(_, _) => Err(Refusal::WrongKind),
    }
}

// Checks 3 and 4 of a source that must be bits: how many, and its sub-shares. Apart from `a_number`: it answers other fields.
#[tactic(auto, unfolding(machine::specs::Checks::first_met))]
fn some_bits(x: Register) -> Result<(u64, Sharing), Refusal>
    ensures refusal { verdict_of result ≡ first_met (some_bits (kind_of x)) }
    ensures found { IfOk result (λ n. x ≡ Register.Bits n.0 n.1) }
{
    match x {
        Register::Empty => Err(Refusal::EmptySource),
        Register::Number(_, _) => Err(Refusal::WrongKind),
        Register::Bits(l, s) => Ok((l, s)),
    }
}

// Checks 3, 4 and 6 of two sources: their ring and their sub-shares.
fn two_numbers(x: Register, y: Register) -> Result<(Ring, Sharing, Sharing), Refusal>
    ensures refusal { verdict_of result ≡ first_met (two_numbers (kind_of x) (kind_of y)) }
    ensures found { IfOk result (λ n. (x ≡ Register.Number n.0 n.1) × (y ≡ Register.Number n.0 n.2)) }
{
    if x.is_empty() | y.is_empty() {
        return Err(Refusal::EmptySource);
    }
    let (r, s) = a_number(x)?;
    let (q, t) = a_number(y)?;
    if r != q {
        return Err(Refusal::RingsDiffer);
    }
    Ok((r, s, t))
}

// Three runs of unequal length, or over 1,000,000 words. Three numbers and no struct: mask tapes and channels are asked in turn.
pub fn uneven(l0: u64, l1: u64, l2: u64) -> bool
    ensures { result ≡ uneven (three l0 l1 l2) }
{
    (l0 != l1) | ((l1 != l2) | (MILLION < l0))
}

// Fewer than n left from a position on.
pub fn too_few(length: u64, at: u64, n: u64) -> bool
    ensures { result ≡ ltb length (at + n) }
{
    if length < at {
        return true;
    }
    length - at < n
}

// Checks 1 to 4 and 6 of an order on two numbers.
pub fn pair(s: Sources, d: u64, x: u64, y: u64) -> Result<(Ring, Sharing, Sharing), Refusal>
    ensures refusal { verdict_of result ≡ first_met (begin_checks s.sound (d ∷ x ∷ y ∷ []) ++ two_numbers (kind_of s.a) (kind_of s.b)) }
    ensures found { IfOk result (λ n. (s.a ≡ Register.Number n.0 n.1) × (s.b ≡ Register.Number n.0 n.2)) }
{
    begin(s.sound, &[d, x, y])?;
    two_numbers(s.a, s.b)
}

// Checks 1 to 4 of an order on one number.
pub fn number(s: Sources, d: u64, x: u64) -> Result<(Ring, Sharing), Refusal>
    ensures refusal { verdict_of result ≡ first_met (begin_checks s.sound (d ∷ x ∷ []) ++ a_number (kind_of s.a)) }
    ensures found { IfOk result (λ n. s.a ≡ Register.Number n.0 n.1) }
{
    begin(s.sound, &[d, x])?;
    a_number(s.a)
}

// And of composing. It shares one line with `number`: one function of both would be handed the reader, its type and its checks.
pub fn bits(s: Sources, d: u64, x: u64) -> Result<(u64, Sharing), Refusal>
    ensures refusal { verdict_of result ≡ first_met (begin_checks s.sound (d ∷ x ∷ []) ++ some_bits (kind_of s.a)) }
    ensures found { IfOk result (λ n. s.a ≡ Register.Bits n.0 n.1) }
{
    begin(s.sound, &[d, x])?;
    some_bits(s.a)
}
