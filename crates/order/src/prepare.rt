// Orders 2 to 8: the checks of the record, and what is then to be done. `pair`, `number` and `bits` hold what the orders share: what
// is left in each function is that order's own check, its own task and its own clause, so the like-looking ones stay apart.
ghost use Rattle.std.specs.Prelude.{◌≡◌, ◌<◌};
ghost use Rattle.ring.specs.Rings.{modulus_of};
ghost use Rattle.gate.specs.Places.{InRange};
ghost use Rattle.order.specs.Attempts.{Prepares};
ghost use Rattle.order.specs.Sources.{sources_in};
ghost use Rattle.order.specs.Tasks.{added_to, scaled_by};

use crate::sources::Sources;
use crate::tasks::{Prepared, Task};
use crate::verdicts::{bits, number, pair};
use gate::Sharing;
use machine::{Machine, Order, Refusal, Register};
use ring::Ring;

// Sub-share by sub-share.
fn sums(r: Ring, x: Sharing, y: Sharing) -> Sharing
    requires left { InRange (modulus_of r) x }
    requires right { InRange (modulus_of r) y }
    ensures { result ≡ added_to (modulus_of r) x y }
{
    x.zip(y, |a, b| r.add(a, b))
}

// Each sub-share times c.
fn products(r: Ring, x: Sharing, c: u64) -> Sharing
    requires source { InRange (modulus_of r) x }
    requires factor { c < modulus_of r }
    ensures { result ≡ scaled_by (modulus_of r) x c }
{
    x.map(|a| r.mul(a, c))
}

// Order 2.
pub fn add(s: Sources, d: u64, x: u64, y: u64) -> Result<Prepared, Refusal>
    requires { (m : Machine) × (s ≡ sources_in m (Order.Add d x y)) }
    ensures { (m : Machine) → s ≡ sources_in m (Order.Add d x y) → Prepares (Order.Add d x y) m d result }
{
    let (r, a, b) = pair(s, d, x, y)?;
    Ok(Prepared::Local(Register::Number(r, sums(r, a, b))))
}

// Order 3.
pub fn scale(s: Sources, d: u64, x: u64, c: u64) -> Result<Prepared, Refusal>
    requires { (m : Machine) × (s ≡ sources_in m (Order.Scale d x c)) }
    ensures { (m : Machine) → s ≡ sources_in m (Order.Scale d x c) → Prepares (Order.Scale d x c) m d result }
{
    let (r, a) = number(s, d, x)?;
    if r.modulus() <= c {
        return Err(Refusal::OutOfRange);
    }
    Ok(Prepared::Local(Register::Number(r, products(r, a, c))))
}

// Order 4.
pub fn multiply(s: Sources, d: u64, x: u64, y: u64) -> Result<Prepared, Refusal>
    ensures { (m : Machine) → s ≡ sources_in m (Order.Multiply d x y) → Prepares (Order.Multiply d x y) m d result }
{
    let (r, a, b) = pair(s, d, x, y)?;
    Ok(Prepared::Gates(Task::Multiply(r, a, b)))
}

// Order 5.
pub fn decompose(s: Sources, d: u64, x: u64, l: u64) -> Result<Prepared, Refusal>
    ensures { (m : Machine) → s ≡ sources_in m (Order.Decompose d x l) → Prepares (Order.Decompose d x l) m d result }
{
    let (r, a) = number(s, d, x)?;
    let most = r.width() - 2;
    if !((1 <= l) & (l <= most)) {
        return Err(Refusal::OutOfRange);
    }
    Ok(Prepared::Gates(Task::Decompose(r, a, l)))
}

// Order 6.
pub fn convert(s: Sources, d: u64, x: u64, f: u64) -> Result<Prepared, Refusal>
    ensures { (m : Machine) → s ≡ sources_in m (Order.Convert d x f) → Prepares (Order.Convert d x f) m d result }
{
    let (r, a) = number(s, d, x)?;
    let to = Ring::of_width(f).ok_or(Refusal::NoRing)?;
    Ok(Prepared::Gates(Task::Convert(r, to, a)))
}

// Order 7.
pub fn shift(s: Sources, d: u64, x: u64, n: u64) -> Result<Prepared, Refusal>
    ensures { (m : Machine) → s ≡ sources_in m (Order.Shift d x n) → Prepares (Order.Shift d x n) m d result }
{
    let (r, a) = number(s, d, x)?;
    let most = r.width() - 3;
    if most < n {
        return Err(Refusal::OutOfRange);
    }
    Ok(Prepared::Gates(Task::Shift(r, a, n)))
}

// Order 8.
pub fn compose(s: Sources, d: u64, x: u64, f: u64) -> Result<Prepared, Refusal>
    ensures { (m : Machine) → s ≡ sources_in m (Order.Compose d x f) → Prepares (Order.Compose d x f) m d result }
{
    let (l, w) = bits(s, d, x)?;
    let r = Ring::of_width(f).ok_or(Refusal::NoRing)?;
    Ok(Prepared::Gates(Task::Compose(r, w, l)))
}
