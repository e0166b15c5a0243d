// Lists of gates: what they are, what follows from them for every list, and the sharings that an order's code starts from.
// The orders' code is in `decompose`, `compose` and `shift`.
#![tactic(auto)]

mod lent;
mod sharings;

pub use lent::Lent;
pub use sharings::{four_times, zeros};
