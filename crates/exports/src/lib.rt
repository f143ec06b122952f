// What C and Rust may call. Each call is whole: it opens what it needs, and nothing outlives it. A call that may be refused answers 0 or
// document 01's number and gives its value through the cells lent to it, which a refusal leaves as they were.
#![tactic(auto)]

mod banks;
mod counting;
mod leaves;
mod levels;
mod planned;
mod plays;
mod signals;
mod waits;
mod writing;
