// The tests of the root, and of the bitmap block that it names.
ghost use Rattle.std.specs.Prelude.{◌≡◌};
ghost use Rattle.answers.specs.Refusals.{told};
ghost use Rattle.answers.specs.Tests.{tests};
ghost use Rattle.volume.specs.Disks.{root_of};
ghost use Rattle.volume.specs.Blocks.{Holds};
ghost use Rattle.volume.specs.Rules.{root_types, root_words, root_fault, all_zero, map_fault, bitmap_fault};

use crate::block::{Block, sum_of, word_of};
use crate::disk::Disk;
use crate::name::name_good;
use answers::Fault;

// Sum and types.
fn types_fault(image: &[u8], root: u32) -> Result<(), Fault>
    requires { Holds image.now root }
    ensures { told result ≡ tests (root_types image.now root) }
{
    if sum_of(image, root) != 0 {
        return Err(Fault::BlockSum);
    }
    if word_of(image, root, Block::TYPE) != Block::HEADER_TYPE {
        return Err(Fault::BlockType);
    }
    if word_of(image, root, Block::KIND) != Block::ROOT_KIND {
        return Err(Fault::BlockType);
    }
    Ok(())
}

// The words that are fixed.
fn words_fault(image: &[u8], root: u32) -> Result<(), Fault>
    requires { Holds image.now root }
    ensures { told result ≡ tests (root_words image.now root) }
{
    if word_of(image, root, Block::OWN_KEY) != 0 {
        return Err(Fault::RootWords);
    }
    if word_of(image, root, Block::COUNT) != 0 {
        return Err(Fault::RootWords);
    }
    if word_of(image, root, Block::TABLE) != Block::SLOTS as u32 {
        return Err(Fault::RootWords);
    }
    if word_of(image, root, Block::FIRST_DATA) != 0 {
        return Err(Fault::RootWords);
    }
    if word_of(image, root, Block::NEXT) != 0 {
        return Err(Fault::RootWords);
    }
    if word_of(image, root, Block::PARENT) != 0 {
        return Err(Fault::RootWords);
    }
    if word_of(image, root, Block::LIST) != 0 {
        return Err(Fault::RootWords);
    }
    Ok(())
}

// The root, up to its name.
pub fn root_fault(disk: Disk, image: &[u8]) -> Result<(), Fault>
    requires { Holds image.now (root_of disk) }
    ensures { told result ≡ root_fault disk image.now }
{
    let root = disk.root();
    types_fault(image, root)?;
    words_fault(image, root)?;
    if name_good(image, root) {
        Ok(())
    } else {
        Err(Fault::BadName)
    }
}

// How many words after the bitmap's key are 0.
const UNUSED: usize = 25;

// Whether the unused words after the bitmap's key are 0.
fn unused_zero(image: &[u8], root: u32) -> bool
    requires { Holds image.now root }
    ensures { result ≡ all_zero image.now root 80 25 }
{
    for i in 0..UNUSED {
        if word_of(image, root, Block::MAP_KEY + 1 + i) != 0 {
            return false;
        }
    }
    true
}

// The root's words about the bitmap, but its key.
pub fn map_fault(disk: Disk, image: &[u8]) -> Result<(), Fault>
    requires { Holds image.now (root_of disk) }
    ensures { told result ≡ map_fault disk image.now }
{
    let root = disk.root();
    if word_of(image, root, Block::MAP_VALID) != 0xFFFFFFFF {
        return Err(Fault::BitmapWords);
    }
    if unused_zero(image, root) {
        Ok(())
    } else {
        Err(Fault::BitmapWords)
    }
}

// The bitmap block.
pub fn bitmap_fault(image: &[u8], key: u32) -> Result<(), Fault>
    requires { Holds image.now key }
    ensures { told result ≡ bitmap_fault image.now key }
{
    if sum_of(image, key) != 0 {
        return Err(Fault::BlockSum);
    }
    Ok(())
}
