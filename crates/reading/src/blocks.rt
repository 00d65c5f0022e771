// The tests of a file's blocks, in the audit's order and without claims. The loops are those of `audit::files`, and not
// one for both: a visitor of blocks would need a relation for its state, and a theorem from that to each promise, which
// is more to read than these two loops.
ghost use Rattle.std.specs.Prelude.{◌≡◌, ◌+◌, ◌≤◌, ◌<◌, length};
ghost use Rattle.answers.specs.Refusals.{told};
ghost use Rattle.volume.specs.Disks.{Sized, image_bytes};
ghost use Rattle.volume.specs.Files.{blocks_of};
ghost use Rattle.volume.specs.Rules.{file_fault};
ghost use Rattle.walk.specs.Nodes.{datum};
ghost use Rattle.walk.specs.KeyBlocks.{list_node, InFile, KeysReady};
ghost use Rattle.reading.specs.FileTests.{node_fault, first_fault, file_nodes, blocks_fault};
ghost use Rattle.reading.specs.Parts.{KeysTested, ListTested};

use answers::{Fault, Refusal};
use volume::disk::Disk;
use volume::file::{file_fault, key_of};
use walk::file::KeyBlock;

// Data block n of b's file, after the block `last`.
fn test_data(
    disk: Disk,
    image: &[u8],
    b: KeyBlock,
    key: u32,
    n: u32,
    last: u32,
) -> Result<(), Fault>
    requires { (Sized disk) × (length image.now ≡ image_bytes disk) × (InFile disk image.now b)
        × (last < disk.blocks) × (1 ≤ n) × (n ≤ blocks_of disk image.now b.header) }
    ensures { told result ≡ node_fault disk image.now (datum key b.header n last) }
{
    if !disk.in_range(key) {
        return Err(Fault::BadKey);
    }
    b.data_tests(disk, image, None, key, n, last)
}

// The data blocks that one block lists.
fn test_keys(disk: Disk, image: &[u8], b: KeyBlock) -> Result<(), Refusal>
    requires { (Sized disk) × (length image.now ≡ image_bytes disk) × (KeysReady disk image.now b) }
    ensures { KeysTested disk image.now b result }
{
    let mut last = b.last;
    for i in 0..b.key_count(disk) {
        let key = key_of(image, b.key, i as usize);
        if let Err(fault) = test_data(disk, image, b, key, b.done + i + 1, last) {
            return Err(fault.at(key as usize));
        }
        last = key;
    }
    Ok(())
}

// A list block.
fn test_list(disk: Disk, image: &[u8], b: KeyBlock) -> Result<(), Fault>
    requires { (Sized disk) × (length image.now ≡ image_bytes disk) × (InFile disk image.now b) }
    ensures { told result ≡ node_fault disk image.now (list_node b) }
{
    if !disk.in_range(b.key) {
        return Err(Fault::BadKey);
    }
    b.list_tests(disk, image, None)
}

// A list block and what it lists.
fn test_with_keys(disk: Disk, image: &[u8], b: KeyBlock) -> Result<(), Refusal>
    requires { (Sized disk) × (length image.now ≡ image_bytes disk) × (InFile disk image.now b) }
    ensures { ListTested disk image.now b result }
{
    if let Err(fault) = test_list(disk, image, b) {
        return Err(fault.at(b.key as usize));
    }
    test_keys(disk, image, b)
}

// The data blocks and list blocks of a file whose header has passed its own tests.
fn test_blocks(disk: Disk, image: &[u8], header: u32) -> Result<(), Refusal>
    requires { (Sized disk) × (length image.now ≡ image_bytes disk) × (header < disk.blocks)
        × (file_fault disk image.now header ≡ 0) }
    ensures { result ≡ first_fault disk image.now (file_nodes disk image.now header) }
{
    let first = KeyBlock::of_header(image, header);
    test_keys(disk, image, first)?;
    let mut b = first.next(image);
    while b.key != 0 {
        test_with_keys(disk, image, b)?;
        b = b.next(image);
    }
    Ok(())
}

// All tests of a file, by its header.
pub(crate) fn test_file(disk: Disk, image: &[u8], header: u32) -> Result<(), Refusal>
    requires { (Sized disk) × (length image.now ≡ image_bytes disk) × (header < disk.blocks) }
    ensures { result ≡ blocks_fault disk image.now header }
{
    if let Err(fault) = file_fault(disk, image, header) {
        return Err(fault.at(header as usize));
    }
    test_blocks(disk, image, header)
}
