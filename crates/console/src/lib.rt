// What the programs share: words in hex, rooms, arguments and input.
#![tactic(auto)]

pub mod hex;
pub mod rooms;
pub mod streams;
