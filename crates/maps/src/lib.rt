// Definitions and theorems only: see specs/ and proofs/.
#![tactic(auto)]
