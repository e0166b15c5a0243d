// The set for programs in other languages: one order on words, one tape, and one batch.
#![tactic(auto)]

mod batches;
mod steps;
mod tapes;

// The number returned for words in no layout: 02's refusals 14 to 22 stay free.
const MALFORMED: u64 = 100;
