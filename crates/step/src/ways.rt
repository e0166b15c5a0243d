// How an order is carried out: a deal, an opening, and orders 2 to 8 by what the record decides.
ghost use Rattle.std.specs.Prelude.{◌≡◌};
ghost use Rattle.order.specs.Sources.{sources_in};
ghost use Rattle.step.specs.Ways.{Takes};

use machine::{Machine, Order, Refusal};
use order::{Prepared, Sources, add, compose, convert, decompose, multiply, scale, shift};

// Orders 2 to 8 meet in one, with their destination, so that they are attempted at one place.
#[derive(Clone, Copy)]
pub enum Way {
    Deal { d: u64, e: u64, v: u64 },
    Attempt(u64, Result<Prepared, Refusal>),
    Open { x: u64 },
}

// The way of an order, by what it has found of a record. The kinds hold other fields each, so the one `match` that takes them out calls
// their functions too.
pub fn way_of(s: Sources, o: Order) -> Way
    requires { (m : Machine) × (s ≡ sources_in m o) }
    ensures { (m : Machine) → s ≡ sources_in m o → Takes o m result }
{
    match o {
        Order::Deal { d, e, v } => Way::Deal { d, e, v },
        Order::Add { d, x, y } => Way::Attempt(d, add(s, d, x, y)),
        Order::Scale { d, x, c } => Way::Attempt(d, scale(s, d, x, c)),
        Order::Multiply { d, x, y } => Way::Attempt(d, multiply(s, d, x, y)),
        Order::Decompose { d, x, l } => Way::Attempt(d, decompose(s, d, x, l)),
        Order::Convert { d, x, f } => Way::Attempt(d, convert(s, d, x, f)),
        Order::Shift { d, x, s: n } => Way::Attempt(d, shift(s, d, x, n)),
        Order::Compose { d, x, f } => Way::Attempt(d, compose(s, d, x, f)),
        Order::Open { x } => Way::Open { x },
    }
}
