// How true the float pitch stays (document 02, T-12). No code: specs/Lib.antt and proofs/Lib.antt are the index.
#![tactic(auto)]
