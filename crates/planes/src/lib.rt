// Bits of 64 words by planes: plane j has bit j of each word, bit k being word k's. Squares of bits transposed, figures to planes
// and back, and the majority of bits for 64 figures at once.
#![tactic(auto)]

mod gates;
mod places;
mod rows;
mod squares;

pub use gates::majority_words;
pub use places::Planes;
