// The library as C and Rust meet it: each call gives its answer as numbers, and asks nothing of what it is lent. One
// call says in words what a refusal's number means.
// proofs/Headlines.antt has the theorems about them side by side.
#![tactic(auto)]

pub mod programs;
pub mod reasons;
pub mod volumes;
