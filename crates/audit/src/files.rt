// The walk through a file: the data blocks of its header, then each list block with its own. `map` has what is known
// of sums.
ghost use Rattle.std.specs.Prelude.{◌≡◌, [], ◌≤◌, ◌<◌};
ghost use Rattle.answers.specs.Refusals.{told};
ghost use Rattle.volume.specs.Sums.{SumsKnown, Testable};
ghost use Rattle.volume.specs.Files.{blocks_of};
ghost use Rattle.volume.specs.Rules.{file_fault};
ghost use Rattle.walk.specs.Nodes.{datum, fault_of, key_block_nodes};
ghost use Rattle.walk.specs.KeyBlocks.{InFile, KeysReady};
ghost use Rattle.audit.specs.Walks.{Ready, Walks, KeysWalked, ListWalked};

use crate::claims::meet;
use answers::{Fault, Refusal};
use volume::disk::Disk;
use volume::file::key_of;
use walk::Counts;
use walk::file::KeyBlock;

// The tests of data block n of b's file, after the block `last`. The Fast File System has none: `KeyBlock::data_tests`
// asks this too, but here it saves a call for each data block.
fn data_tests(
    disk: Disk,
    image: &[u8],
    map: Option<u32>,
    b: KeyBlock,
    key: u32,
    n: u32,
    last: u32,
) -> Result<(), Fault>
    requires { Testable disk image.now map key × InFile disk image.now b × (last < disk.blocks) × (1 ≤ n)
        × (n ≤ blocks_of disk image.now b.header) }
    ensures { told result ≡ fault_of disk image.now (datum key b.header n last) }
{
    if disk.is_old() {
        return b.data_tests(disk, image, map, key, n, last);
    }
    Ok(())
}

// The data blocks that one block lists.
fn walk_keys(
    disk: Disk,
    image: &[u8],
    map: Option<u32>,
    claim: &mut [u8],
    b: KeyBlock,
    mut n: Counts,
) -> Result<Counts, Refusal>
    requires { Ready disk image.now claim.old n × KeysReady disk image.now b × SumsKnown disk image.now map }
    ensures { KeysWalked disk image.now b n claim.old result claim.new }
{
    let mut last = b.last;
    for i in 0..b.key_count(disk) {
        let key = key_of(image, b.key, i as usize);
        let number = b.done + i + 1;
        meet(
            disk,
            claim,
            key,
            key as usize,
            move || data_tests(disk, image, map, b, key, number, last),
        )?;
        n.blocks += 1;
        last = key;
    }
    Ok(n)
}

// A list block and what it lists, up to its link.
fn walk_list(
    disk: Disk,
    image: &[u8],
    map: Option<u32>,
    claim: &mut [u8],
    b: KeyBlock,
    mut n: Counts,
) -> Result<Counts, Refusal>
    requires { Ready disk image.now claim.old n × InFile disk image.now b × SumsKnown disk image.now map }
    ensures { ListWalked disk image.now b n claim.old result claim.new }
{
    meet(
        disk,
        claim,
        b.key,
        b.key as usize,
        move || b.list_tests(disk, image, map),
    )?;
    n.lists += 1;
    walk_keys(disk, image, map, claim, b, n)
}

// A file's blocks; its header is claimed and has passed its tests.
pub(crate) fn walk_file(
    disk: Disk,
    image: &[u8],
    map: Option<u32>,
    claim: &mut [u8],
    header: u32,
    mut n: Counts,
) -> Result<Counts, Refusal>
    requires { Ready disk image.now claim.old n × (header < disk.blocks)
        × (file_fault disk image.now header ≡ 0) × SumsKnown disk image.now map }
    ensures { Walks disk image.now
        (key_block_nodes disk image.now header header 0 header) [] n claim.old result
        claim.new }
{
    let first = KeyBlock::of_header(image, header);
    n = walk_keys(disk, image, map, claim, first, n)?;
    let mut b = first.next(image);
    while b.key != 0 {
        n = walk_list(disk, image, map, claim, b, n)?;
        b = b.next(image);
    }
    Ok(n)
}
