// Order 5 for 64 figures at once: gate g takes word g of each mask slice and writes word g of each channel, bit k for figure k.
#![tactic(auto)]

mod order;
mod stages;
mod words;

pub use order::decompose_lanes;
