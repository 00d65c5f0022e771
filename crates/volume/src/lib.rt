// A volume's leaves: what a disk, a block, a name, a file's size and the bitmap are, and the tests of one block of
// each kind. The law of a volume, which calls above this crate decide, is specs/Law.antt.
#![tactic(auto)]

pub mod bitmap;
pub mod block;
pub mod disk;
pub mod entry;
pub mod file;
pub mod name;
pub mod root;
pub mod sums;
