// When each of document 01's refusals is given. Definitions and theorems only: see specs/ and proofs/.
#![tactic(auto)]
