// Demand 2 of the circuits: what each leaves, for all sub-shares. Statements and proofs only.
#![tactic(auto)]
