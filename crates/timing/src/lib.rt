// Loops over the library's functions, exported for bench/ alone.
#![tactic(auto)]

mod chains;
mod products;

pub use chains::timing_gate;
pub use products::timing_multiply;
