// R-13 of document 02: filing order does not matter. Definitions and theorems only: see specs/ and proofs/.
#![tactic(auto)]
