// What an order reads of the record.
ghost use Rattle.std.specs.Prelude.{◌≡◌};
ghost use Rattle.order.specs.Sources.{first_source, second_source};

use machine::{Order, REGISTERS};
use order::{Positions, Sources};

// Whether it is sound, the registers that the order names as sources, and the positions.
#[derive(Clone, Copy)]
pub struct Found {
    pub sources: Sources,
    pub at: Positions,
}

// No register has this number, and it reads as an empty one: so a missing source needs no case of its own.
const NONE: u64 = REGISTERS as u64;

// The number of an order's source x: a `match`, since an order with no source has no such field.
pub fn source(o: Order) -> u64
    ensures { result ≡ first_source o }
{
    match o {
        Order::Deal { .. } => NONE,
        Order::Add { x, .. }
        | Order::Scale { x, .. }
        | Order::Multiply { x, .. }
        | Order::Decompose { x, .. }
        | Order::Convert { x, .. }
        | Order::Shift { x, .. }
        | Order::Compose { x, .. }
        | Order::Open { x } => x,
    }
}

// And of its source y, which two kinds have.
pub fn other(o: Order) -> u64
    ensures { result ≡ second_source o }
{
    match o {
        Order::Add { y, .. } | Order::Multiply { y, .. } => y,
        Order::Deal { .. }
        | Order::Scale { .. }
        | Order::Decompose { .. }
        | Order::Convert { .. }
        | Order::Shift { .. }
        | Order::Compose { .. }
        | Order::Open { .. } => NONE,
    }
}
