// Orders 2 to 8 of 01, once the record has decided: lengths, items, and the gates on lent runs.
#![tactic(auto)]

mod attempts;
mod items;
mod lengths;
mod words;

pub use attempts::{attempt, room};
pub use items::any_outside;
pub use lengths::Lengths;
