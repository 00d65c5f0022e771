// A file's blocks in the order of the walk: a block that lists keys, the tests of what it leads to, and the list
// block after it. What an audit and a read do alike.
ghost use Rattle.std.specs.Prelude.{◌≡◌, ◌-◌, ◌≤◌, ◌<◌};
ghost use Rattle.answers.specs.Refusals.{told};
ghost use Rattle.volume.specs.Disks.{Sized, file_limit};
ghost use Rattle.volume.specs.Blocks.{Holds};
ghost use Rattle.volume.specs.Sums.{Testable};
ghost use Rattle.volume.specs.Files.{data_blocks, blocks_of, keys_here};
ghost use Rattle.walk.specs.Nodes.{datum, fault_of};
ghost use Rattle.walk.specs.KeyBlocks.{header_of, next_of, list_node, InFile, InImage};

use answers::Fault;
use volume::block::{Block, word_of};
use volume::disk::Disk;
use volume::file::{data_fault, key_of, keys_here, list_fault};

// A block that lists data blocks of a file: the header, or a list block.
#[derive(Clone, Copy)]
pub struct KeyBlock {
    pub header: u32,
    // The file's, as the header says it.
    pub size: u32,
    // 0 after the last, as the disk has it.
    pub key: u32,
    // How many data blocks come before its own, and the last of them, or the header.
    pub done: u32,
    pub last: u32,
}

impl KeyBlock {
    // The header of a file. Only here is the size read.
    pub fn of_header(image: &[u8], header: u32) -> KeyBlock
        requires { Holds image.now header }
        ensures { result ≡ header_of image.now header }
    {
        KeyBlock {
            header,
            size: word_of(image, header, Block::SIZE),
            key: header,
            done: 0,
            last: header,
        }
    }

    // The list block after it; the key is 0 after the last.
    pub fn next(self, image: &[u8]) -> KeyBlock
        requires { InImage image.now self }
        ensures { result ≡ next_of image.now self }
    {
        KeyBlock {
            key: word_of(image, self.key, Block::LIST),
            done: self.done + Block::SLOTS as u32,
            last: key_of(image, self.key, Block::SLOTS - 1),
            ..self
        }
    }

    // How many data blocks of its file it lists.
    pub fn key_count(self, disk: Disk) -> u32
        requires { Sized disk × (self.size ≤ file_limit disk) × (self.done ≤ data_blocks disk self.size) }
        ensures { result ≡ keys_here (data_blocks disk self.size - self.done) }
    {
        keys_here(disk.data_blocks(self.size) - self.done)
    }

    // The tests of data block n of its file, after the block `last`; sums are known by `map`, if any are.
    pub fn data_tests(
        self,
        disk: Disk,
        image: &[u8],
        map: Option<u32>,
        key: u32,
        n: u32,
        last: u32,
    ) -> Result<(), Fault>
        requires { Testable disk image.now map key × InFile disk image.now self
            × (last < disk.blocks) × (1 ≤ n) × (n ≤ blocks_of disk image.now self.header) }
        ensures { told result ≡ fault_of disk image.now (datum key self.header n last) }
    {
        data_fault(disk, image, map, key, self.header, self.size, n, last)
    }

    // Its own tests, as a list block; sums are known by `map`, if any are.
    pub fn list_tests(self, disk: Disk, image: &[u8], map: Option<u32>) -> Result<(), Fault>
        requires { Testable disk image.now map self.key × InFile disk image.now self }
        ensures { told result ≡ fault_of disk image.now (list_node self) }
    {
        list_fault(
            disk,
            image,
            map,
            self.key,
            self.header,
            disk.data_blocks(self.size) - self.done,
        )
    }
}
