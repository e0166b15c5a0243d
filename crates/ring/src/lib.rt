// The rings of the set: arithmetic modulo 2^e - 1 for the widths 13, 31 and 61, and single bits of words.
#![tactic(auto)]

mod arith;
mod bits;
mod modular;
mod rings;

pub use bits::bit;
pub use modular::{add_mod, add_rotated, mul_add_mod, mul_mod, reduce_once, reduce_short};
pub use rings::Ring;
