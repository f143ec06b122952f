// Ranks are those that start times would give, over calls in any order. No code: specs/Lib.antt and proofs/Lib.antt are the index.
#![tactic(auto)]
