// Document 01's checked examples that are marked P, as one statement about the definitions. No code: specs/Examples.antt is
// the statement, proofs/Holds.antt its proof.
#![tactic(auto)]
