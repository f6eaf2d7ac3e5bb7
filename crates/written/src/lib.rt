// The image format from the other side: what is written of a schema, and that it is read back. Definitions and theorems only: see specs/
// and proofs/.
#![tactic(auto)]
