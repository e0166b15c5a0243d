// Orders 2 to 8 as far as the record decides them, the checks that orders share, and the change that an order makes.
#![tactic(auto)]

mod answers;
mod changes;
mod prepare;
mod sources;
mod tasks;
mod verdicts;

pub use answers::{Outcome, gates, refusal, value};
pub use changes::{Change, answer, apply};
pub use prepare::{add, compose, convert, decompose, multiply, scale, shift};
pub use sources::{Positions, Sources};
pub use tasks::{Cost, Prepared, Task};
pub use verdicts::{begin, too_few, uneven};
