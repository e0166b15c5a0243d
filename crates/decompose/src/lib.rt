// Decomposition of a shared ring number into shared bits, on lent slices: 01, order 5.
#![tactic(auto)]

mod order;
mod stages;
mod turns;
mod words;

pub use order::decompose;
