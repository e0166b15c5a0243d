// What one party sees of a list of gates, and what it cannot. Definitions and proofs only.
#![tactic(auto)]
