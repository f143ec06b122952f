// Document 02's T-13 held to the box: what `counts` gives is what trying every list on a silent box gives. No code: specs/Tried.antt is the
// statement, proofs/Holds.antt its proof.
#![tactic(auto)]
