// Loading a program file into lent memory, and moving a loaded program to other bases.
#![tactic(auto, using(program::proofs::Choices::choices))]

mod bases;
pub mod calls;
mod marks;
mod memory;
mod steps;
pub mod table;
