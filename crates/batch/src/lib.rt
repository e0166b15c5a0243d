// Sixty-four figures decomposed at once: 02, P13.
#![tactic(auto)]

mod calls;
mod checks;

pub use calls::decompose_batch;
