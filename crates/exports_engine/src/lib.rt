// The calls of `exports` that open a box, over document 01's box, for the comparison of speed alone. A library of its own, since the compiler
// weighs a library as a whole.
#![tactic(auto)]

mod plays;
