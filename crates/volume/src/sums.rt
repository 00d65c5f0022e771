// Sums of blocks, added up in the order of the disk before any block is met. Blocks are met in the order of
// directories and files, and where that is no order of the disk, most of the time goes by with waiting for memory.
ghost use Rattle.std.specs.Prelude.{◌≡◌, true, ◌≤◌, ◌<◌, length};
ghost use Rattle.volume.specs.Disks.{Sized, first_key, most_blocks, image_bytes};
ghost use Rattle.volume.specs.Blocks.{Holds, sum_of};
ghost use Rattle.volume.specs.Sums.{breaks_sum, SumsKnown, Testable};

use crate::bitmap::is_free;
use crate::block::sum_of;
use crate::disk::Disk;

// Whether a block is in use by a bitmap block, and does not add up to 0.
fn breaks_sum(image: &[u8], bitmap: u32, key: u32) -> bool
    requires { (first_key ≤ key) × (key < most_blocks) × (Holds image.now bitmap) × (Holds image.now key) }
    ensures { result ≡ breaks_sum image.now bitmap key }
{
    if is_free(image, bitmap, key) {
        return false;
    }
    sum_of(image, key) != 0
}

// A bitmap block's key, if all blocks that it has in use add up to 0.
fn summed_by(disk: Disk, image: &[u8], bitmap: u32) -> Option<u32>
    requires { (Sized disk) × (length image.now ≡ image_bytes disk) × (bitmap < disk.blocks) }
    ensures { SumsKnown disk image.now result }
{
    for key in Disk::FIRST_KEY..disk.blocks {
        if breaks_sum(image, bitmap, key) {
            return None;
        }
    }
    Some(bitmap)
}

// The bitmap block by which all sums are known. Data blocks of the Fast File System have no sum, so none are known
// there.
pub fn known_sums(disk: Disk, image: &[u8], bitmap: u32) -> Option<u32>
    requires { (Sized disk) × (length image.now ≡ image_bytes disk) × (bitmap < disk.blocks) }
    ensures { SumsKnown disk image.now result }
{
    if disk.is_old() {
        summed_by(disk, image, bitmap)
    } else {
        None
    }
}

// Whether a block is known to add up to 0, by the bitmap block `map`.
fn is_summed(disk: Disk, image: &[u8], map: Option<u32>, key: u32) -> bool
    requires { Testable disk image.now map key }
    ensures { result ≡ true → 0 ≡ sum_of image.now key }
{
    match map {
        Some(bitmap) => !is_free(image, bitmap, key),
        None => false,
    }
}

// The sum of a block, added up only if it is not known by the bitmap block `map`.
pub fn known_sum(disk: Disk, image: &[u8], map: Option<u32>, key: u32) -> u32
    requires { Testable disk image.now map key }
    ensures { result ≡ sum_of image.now key }
{
    if is_summed(disk, image, map, key) {
        return 0;
    }
    sum_of(image, key)
}
