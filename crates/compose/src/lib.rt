// Orders 4, 6 and 8 of 01 on lent slices: multiplying, converting to another ring, and composing bits.
#![tactic(auto)]

mod bits;
mod quotients;
mod steps;

pub use bits::{compose, compose_bits};
pub use quotients::convert;
pub use steps::multiply;
