// Definitions and lemmas that several crates cite. No code: specs/Lib.antt and proofs/Lib.antt are the index.
