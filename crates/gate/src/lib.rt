// Sharings of numbers and bits, and the gate that multiplies two of them: its words, and their sending.
#![tactic(auto)]

mod gates;
mod sharing;
mod words;

pub use gates::send;
pub use sharing::Sharing;
pub use words::{bit_words, ring_words, words_by_bit, words_of_bits};
