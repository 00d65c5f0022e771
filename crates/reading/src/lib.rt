// Reading a file's bytes: its blocks are tested, and then copied.
#![tactic(auto)]

mod blocks;
mod copy;
pub mod read;
