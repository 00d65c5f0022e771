// Writes as they are made in two lent areas: keys in `order`, and blocks one after the other in `blocks`.
#![tactic(auto)]

pub mod block;
pub mod write;
