// Tapes of items for a ring or for bits, prepared from raw 64-bit words.
#![tactic(auto)]

mod draws;
mod items;
mod passes;
mod tapes;

pub use items::Items;
pub use tapes::{Refused, prepare};
