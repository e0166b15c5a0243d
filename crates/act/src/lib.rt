// Acts on data at three places, and whole jobs of them, for any protocol. Definitions and proofs only.
#![tactic(auto)]
