// What a line says, by its kind and its numbers. The kind is a number, as it was read, and may be none of these.
ghost use Rattle.std.specs.Prelude.{◌≡◌};
ghost use Rattle.line.specs.Lines.{with_one, with_three};

use machine::Order;

// 01, "The job program": the kinds of lines that are no order's, and open's, the one order with one number.
pub const MASKS: u64 = 0;

const OPEN: u64 = 9;

pub const DEALER: u64 = 10;

// 01, "The job program": items for the mask tapes or for the dealer's, an order, or no such line.
// That is a command too, and no None of an Option: a job counts it and answers it as any other.
#[derive(Clone, Copy)]
pub enum Command {
    Masks { t0: u64, t1: u64, t2: u64 },
    Dealer { item: u64 },
    Order(Order),
    Unreadable,
}

// The kinds with one number beside them. The kind alone makes no command, so there is no From for it.
#[tactic(auto, unfolding(crate::specs::Lines::with_one))]
pub fn with_one(kind: u64, a: u64) -> Command
    ensures { result ≡ with_one kind a }
{
    match kind {
        OPEN => Command::Order(Order::Open { x: a }),
        DEALER => Command::Dealer { item: a },
        _ => Command::Unreadable,
    }
}

// The kinds with three; no From for these either.
#[tactic(auto, unfolding(crate::specs::Lines::with_three))]
pub fn with_three(kind: u64, a: u64, b: u64, c: u64) -> Command
    ensures { result ≡ with_three kind a b c }
{
    if kind == MASKS {
        return Command::Masks {
            t0: a,
            t1: b,
            t2: c,
        };
    }
    match Order::of_kind(kind, a, b, c) {
        Some(o) => Command::Order(o),
        None => Command::Unreadable,
    }
}
