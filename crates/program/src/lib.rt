// A program file: one reader that takes a word at a time, and the check of a whole file.
// What a program file is, by the page, is specs/Page.antt.
#![tactic(auto, using(crate::proofs::Choices::choices))]

pub mod act;
pub mod check;
pub mod header;
pub mod reader;
