// Paths to entries, on any image.
#![tactic(auto)]

mod chain;
pub mod find;
mod path;
