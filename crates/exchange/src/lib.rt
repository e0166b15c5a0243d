// Orders 1 and 9 of 01: numbers that come in by a deal and values that go out by an opening.
#![tactic(auto)]

mod deals;
mod openings;

pub use deals::deal;
pub use openings::open;
