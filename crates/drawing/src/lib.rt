// Tape lines of the job program, drawn from raw bytes.
#![tactic(auto)]

mod asked;
mod asks;
mod draws;
mod kinds;
mod lines;
mod raws;

pub use asked::{Asked, BadArgument};
pub use asks::ask;
pub use draws::draw;
pub use kinds::Kind;
