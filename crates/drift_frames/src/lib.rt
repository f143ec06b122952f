#![tactic(auto)]

// How true the float pitch stays in a box, over its frames (document 02, T-12). No code: specs/Lib.antt is the index.
