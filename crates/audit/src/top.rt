// The top of the walk: the root, the bitmap block, and then what is in the root's directory.
ghost use Rattle.std.specs.Prelude.{◌≡◌, [], ◌∷◌, ◌<◌, length, replicate};
ghost use Rattle.answers.specs.Refusals.{told};
ghost use Rattle.answers.specs.Tests.{first};
ghost use Rattle.volume.specs.Disks.{Sized, claim_bytes, image_bytes, root_of};
ghost use Rattle.volume.specs.Blocks.{slots, Holds};
ghost use Rattle.volume.specs.Rules.{root_fault, map_fault};
ghost use Rattle.walk.specs.Nodes.{root, nothing, slot_nodes};
ghost use Rattle.audit.specs.Walks.{Ready, Walks};

use crate::claims::meet;
use crate::directories::walk_directory;
use answers::{Fault, Refusal};
use volume::block::{Block, word_of};
use volume::disk::Disk;
use volume::root::{bitmap_fault, map_fault, root_fault};
use volume::sums::known_sums;
use walk::Counts;

// The root's tests, its words about the bitmap last.
fn root_tests(disk: Disk, image: &[u8]) -> Result<(), Fault>
    requires { Holds image.now (root_of disk) }
    ensures { told result ≡ first (root_fault disk image.now) (map_fault disk image.now) }
{
    root_fault(disk, image)?;
    map_fault(disk, image)
}

// What is in the root's directory; root and bitmap block are met. On the old file system sums are added up first, in
// the order of the disk.
fn walk_tree(disk: Disk, image: &[u8], claim: &mut [u8], bitmap: u32) -> Result<Counts, Refusal>
    requires { Ready disk image.now claim.old nothing × (bitmap < disk.blocks) }
    ensures { Walks disk image.now (slot_nodes image.now (root_of disk) 0 slots) [] nothing
        claim.old result claim.new }
{
    let map = known_sums(disk, image, bitmap);
    walk_directory(disk, image, map, claim, disk.root(), Counts::default())
}

// The walk from the root, with nothing claimed yet.
pub(crate) fn walk_volume(disk: Disk, image: &[u8], claim: &mut [u8]) -> Result<Counts, Refusal>
    requires { Sized disk × (length image.now ≡ image_bytes disk) × (claim.old ≡ replicate (claim_bytes disk) 0) }
    ensures { Walks disk image.now (root ∷ []) [] nothing claim.old result
        claim.new }
{
    let root = disk.root();
    meet(
        disk,
        claim,
        root,
        root as usize,
        move || root_tests(disk, image),
    )?;
    let bitmap = word_of(image, root, Block::MAP_KEY);
    meet(
        disk,
        claim,
        bitmap,
        bitmap as usize,
        move || bitmap_fault(image, bitmap),
    )?;
    walk_tree(disk, image, claim, bitmap)
}
