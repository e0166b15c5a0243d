// What follows from demand 3 for a job's lines, at two lists of lines. Definitions and proofs only.
#![tactic(auto)]
