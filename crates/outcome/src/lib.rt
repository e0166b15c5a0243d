// What every order leaves and answers, by the definition of the machine's step: refusals, record, positions, channels, registers'
// kinds and values, gates; what of it one party works out from its own data; and that values go by values alone, whatever the tapes.
// Statements and proofs only.
#![tactic(auto)]
