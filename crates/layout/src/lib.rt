// Machine records, orders and answers as 64-bit words.
#![tactic(auto)]

mod answers;
mod orders;
mod records;
mod registers;

pub use answers::write_answer;
pub use orders::read_order;
pub use records::{CHANNELS_AT, DEALER_AT, MASKS_AT, RECORD_WORDS, register_at, see, write_change};
