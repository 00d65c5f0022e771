// The walk over a volume: what is met in which order, what is tested of it, and that this decides the law.
// Mathematics, in specs/ and proofs/, and what audits and reads share of the code; the code that walks is crate
// `audit`.
#![tactic(auto)]

pub mod file;

// What an audit counts of the blocks it has met.
#[derive(Clone, Copy, Debug, Default, PartialEq, Eq)]
pub struct Counts {
    pub directories: u32,
    pub files: u32,
    pub lists: u32,
    pub blocks: u32,
}
