// Demand 3, proved once for every rule that keeps the laws of allocation. No code: specs/Lib.antt and proofs/Lib.antt are the index.
