#![tactic(auto)]

// How long a fade takes, proved once for every box that has document 01's calls. No code: specs/Lib.antt and proofs/Lib.antt are the index.
