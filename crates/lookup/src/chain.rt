// One component: its name is looked for on the chain of its slot.
ghost use Rattle.std.specs.Prelude.{◌≡◌, length};
ghost use Rattle.answers.specs.Refusals.{told};
ghost use Rattle.volume.specs.Disks.{Sized, image_bytes};
ghost use Rattle.lookup.specs.Search.{position_fault, search_of};
ghost use Rattle.lookup.specs.Parts.{Searches};

use answers::{Fault, Refusal};
use volume::block::{Block, word_of};
use volume::disk::Disk;
use volume::entry::entry_fault;
use volume::name::{has_name, slot};

// The first entry with a name: its key, and how many entries were compared.
#[derive(Clone, Copy, Debug, PartialEq, Eq)]
pub struct Hit {
    pub key: u32,
    pub compared: u32,
}

// The tests of the entry that is next on a chain: key range, chain limit, and its own.
fn position_fault(
    disk: Disk,
    image: &[u8],
    directory: u32,
    slot: u32,
    compared: u32,
    key: u32,
) -> Result<(), Fault>
    requires { Sized disk × (length image.now ≡ image_bytes disk) }
    ensures { told result ≡ position_fault disk image.now directory slot compared key }
{
    if !disk.in_range(key) {
        return Err(Fault::BadKey);
    }
    if disk.chain_limit() <= compared {
        return Err(Fault::ClaimedTwice);
    }
    entry_fault(disk, image, None, key, directory, slot)
}

// The first entry of a directory with this name; none if its chain ends before.
pub(crate) fn search(
    disk: Disk,
    image: &[u8],
    directory: u32,
    name: &[u8],
) -> Result<Option<Hit>, Refusal>
    requires { Searches disk image.now directory name.now }
    ensures { result ≡ search_of disk image.now directory name.now }
{
    let slot = slot(disk, name);
    let mut key = word_of(image, directory, Block::FIRST_SLOT + slot as usize);
    let mut compared: u32 = 0;
    while key != 0 {
        if let Err(fault) = position_fault(disk, image, directory, slot, compared, key) {
            return Err(fault.at(key as usize));
        }
        compared += 1;
        if has_name(disk, image, key, name) {
            return Ok(Some(Hit { key, compared }));
        }
        key = word_of(image, key, Block::NEXT);
    }
    Ok(None)
}
