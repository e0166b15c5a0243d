// Demand 3 at work: two jobs that differ in the numbers dealt, and a fair run of each that opens the same. Definitions and proofs only.
#![tactic(auto)]
