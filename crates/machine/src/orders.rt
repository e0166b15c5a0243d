// The nine kinds of order.
ghost use Rattle.std.specs.Prelude.{◌≡◌};
ghost use Rattle.machine.specs.Orders.{of_kind};

// 01, "The nine orders": the fields of each kind in its order; d is the destination.
#[derive(Clone, Copy)]
pub enum Order {
    Deal { d: u64, e: u64, v: u64 },
    Add { d: u64, x: u64, y: u64 },
    Scale { d: u64, x: u64, c: u64 },
    Multiply { d: u64, x: u64, y: u64 },
    Decompose { d: u64, x: u64, l: u64 },
    Convert { d: u64, x: u64, f: u64 },
    Shift { d: u64, x: u64, s: u64 },
    Compose { d: u64, x: u64, f: u64 },
    Open { x: u64 },
}

impl Order {
    // The order of a kind and its three fields. 01 numbers the kinds, so C and a line say them so; no `TryFrom`, for it takes one value.
    #[tactic(auto, unfolding(crate::specs::Orders::of_kind))]
    pub fn of_kind(kind: u64, a: u64, b: u64, c: u64) -> Option<Order>
        ensures { result ≡ of_kind kind a b c }
    {
        match kind {
            1 => Some(Order::Deal { d: a, e: b, v: c }),
            2 => Some(Order::Add { d: a, x: b, y: c }),
            3 => Some(Order::Scale { d: a, x: b, c }),
            4 => Some(Order::Multiply { d: a, x: b, y: c }),
            5 => Some(Order::Decompose { d: a, x: b, l: c }),
            6 => Some(Order::Convert { d: a, x: b, f: c }),
            7 => Some(Order::Shift { d: a, x: b, s: c }),
            8 => Some(Order::Compose { d: a, x: b, f: c }),
            _ => None,
        }
    }
}
