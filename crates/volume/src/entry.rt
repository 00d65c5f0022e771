// The tests of an entry, a directory or a file header.
ghost use Rattle.std.specs.Prelude.{◌≡◌};
ghost use Rattle.answers.specs.Refusals.{told};
ghost use Rattle.answers.specs.Tests.{tests};
ghost use Rattle.volume.specs.Blocks.{Holds, directory};
ghost use Rattle.volume.specs.Sums.{Testable};
ghost use Rattle.volume.specs.Rules.{entry_types, entry_words, entry_name, entry_fault};

use crate::block::{Block, word_of};
use crate::disk::Disk;
use crate::name::{name_good, slot_of};
use crate::sums::known_sum;
use answers::Fault;

// Whether an entry is a directory.
pub fn is_directory(image: &[u8], key: u32) -> bool
    requires { Holds image.now key }
    ensures { result ≡ directory image.now key }
{
    word_of(image, key, Block::KIND) == Block::DIRECTORY
}

// Sum and types.
fn types_fault(disk: Disk, image: &[u8], map: Option<u32>, key: u32) -> Result<(), Fault>
    requires { Testable disk image.now map key }
    ensures { told result ≡ tests (entry_types image.now key) }
{
    if known_sum(disk, image, map, key) != 0 {
        return Err(Fault::BlockSum);
    }
    if word_of(image, key, Block::TYPE) != Block::HEADER_TYPE {
        return Err(Fault::BlockType);
    }
    let kind = word_of(image, key, Block::KIND);
    if kind == Block::SOFT_LINK {
        return Err(Fault::Link);
    }
    if kind == Block::DIRECTORY_LINK {
        return Err(Fault::Link);
    }
    if kind == Block::FILE_LINK {
        return Err(Fault::Link);
    }
    if kind == Block::DIRECTORY {
        return Ok(());
    }
    if kind != Block::FILE {
        return Err(Fault::BlockType);
    }
    Ok(())
}

// Its own key, its directory's, and a directory's w126.
fn words_fault(image: &[u8], key: u32, directory: u32) -> Result<(), Fault>
    requires { Holds image.now key }
    ensures { told result ≡ tests (entry_words image.now key directory) }
{
    if word_of(image, key, Block::OWN_KEY) != key {
        return Err(Fault::WrongTies);
    }
    if word_of(image, key, Block::PARENT) != directory {
        return Err(Fault::WrongTies);
    }
    if word_of(image, key, Block::KIND) != Block::DIRECTORY {
        return Ok(());
    }
    if word_of(image, key, Block::LIST) != 0 {
        return Err(Fault::WrongTies);
    }
    Ok(())
}

// Its name and slot.
fn name_fault(disk: Disk, image: &[u8], key: u32, slot: u32) -> Result<(), Fault>
    requires { Holds image.now key }
    ensures { told result ≡ tests (entry_name disk image.now key slot) }
{
    if !name_good(image, key) {
        return Err(Fault::BadName);
    }
    if slot_of(disk, image, key) != slot {
        return Err(Fault::WrongSlot);
    }
    Ok(())
}

// An entry on the chain of a slot of a directory; `map` has what is known of sums.
pub fn entry_fault(
    disk: Disk,
    image: &[u8],
    map: Option<u32>,
    key: u32,
    directory: u32,
    slot: u32,
) -> Result<(), Fault>
    requires { Testable disk image.now map key }
    ensures { told result ≡ entry_fault disk image.now key directory slot }
{
    types_fault(disk, image, map, key)?;
    words_fault(image, key, directory)?;
    name_fault(disk, image, key, slot)
}
