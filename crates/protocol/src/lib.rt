// The nine orders as a protocol of three parties: what a party uses, and demand 3. Definitions and proofs only.
#![tactic(auto)]
