// The walk through a directory, slot by slot and along each chain; what is in an entry is walked before its link is
// followed. `map` has what is known of sums. Disk, image and claim area stay parameters: if they were fields, each
// contract would name them by a longer path, as `walk.image.now`.
ghost use Rattle.std.specs.Prelude.{◌≡◌, [], ℕ, ◌≤◌, ◌<◌, length};
ghost use Rattle.answers.specs.Refusals.{told};
ghost use Rattle.volume.specs.Disks.{image_bytes};
ghost use Rattle.volume.specs.Blocks.{slots, Holds, word_of};
ghost use Rattle.volume.specs.Sums.{SumsKnown, Testable};
ghost use Rattle.volume.specs.Law.{chain_key};
ghost use Rattle.walk.specs.Nodes.{slot_nodes, twin, hangs_fault};
ghost use Rattle.audit.specs.Walks.{Ready, Walks, Known, Chain, EntryWalked, UsedSlot};

use crate::claims::meet;
use crate::files::walk_file;
use answers::{Fault, Refusal};
use volume::block::{Block, word_of};
use volume::disk::Disk;
use volume::entry::{entry_fault, is_directory};
use volume::file::file_fault;
use volume::name::same_names;
use walk::Counts;

const SLOTS: u32 = Block::SLOTS as u32;

// An entry, and where it hangs: at a position, from 0, of the chain of a slot of a directory.
#[derive(Clone, Copy)]
struct Entry {
    key: u32,
    directory: u32,
    slot: u32,
    position: u32,
}

// The key after an entry on its chain.
fn next_entry(image: &[u8], key: u32) -> u32
    requires { Holds image.now key }
    ensures { result ≡ word_of image.now key 124 }
{
    word_of(image, key, Block::NEXT)
}

// The first slot of a directory that is not empty, from `slot` on.
fn used_slot(image: &[u8], key: u32, slot: u32) -> Option<u32>
    requires { Holds image.now key × (slot ≤ slots) }
    ensures { UsedSlot image.now key slot result }
{
    (slot..SLOTS).find(|i| word_of(image, key, Block::FIRST_SLOT + *i as usize) != 0)
}

// Whether one of the first `position` entries of the chain from `head` has the name of an entry.
fn is_twin(disk: Disk, image: &[u8], key: u32, head: u32, position: u32) -> bool
    requires { (length image.now ≡ image_bytes disk) × Known disk image.now key
        × ((q : ℕ) → q < position → Known disk image.now (chain_key image.now head q)) }
    ensures { result ≡ twin disk image.now key head position }
{
    let mut e = head;
    for _ in 0..position {
        if same_names(disk, image, e, key) {
            return true;
        }
        e = next_entry(image, e);
    }
    false
}

// The tests of an entry.
fn hangs_fault(disk: Disk, image: &[u8], map: Option<u32>, e: Entry) -> Result<(), Fault>
    requires { Testable disk image.now map e.key × Chain disk image.now e.directory e.slot e.position }
    ensures { told result ≡ hangs_fault disk image.now e.key e.directory e.slot e.position }
{
    entry_fault(disk, image, map, e.key, e.directory, e.slot)?;
    let head = word_of(image, e.directory, Block::FIRST_SLOT + e.slot as usize);
    if is_twin(disk, image, e.key, head, e.position) {
        return Err(Fault::DoubleName);
    }
    if is_directory(image, e.key) {
        return Ok(());
    }
    file_fault(disk, image, e.key)
}

// An entry: its tests, then what is in it.
#[cycle(walk_directory_walk_entry)]
fn walk_entry(
    disk: Disk,
    image: &[u8],
    map: Option<u32>,
    claim: &mut [u8],
    e: Entry,
    mut n: Counts,
) -> Result<Counts, Refusal>
    requires { Ready disk image.now claim.old n × Chain disk image.now e.directory e.slot e.position
        × SumsKnown disk image.now map }
    ensures { EntryWalked disk image.now e.key e.directory e.slot e.position n claim.old result
        claim.new }
{
    meet(
        disk,
        claim,
        e.key,
        e.key as usize,
        move || hangs_fault(disk, image, map, e),
    )?;
    if is_directory(image, e.key) {
        n.directories += 1;
        return walk_directory(disk, image, map, claim, e.key, n);
    }
    n.files += 1;
    walk_file(disk, image, map, claim, e.key, n)
}

// What is in a directory, slot by slot. The first slot is looked for by a call of its own, which is compiled for just
// that: an audit of many directories takes a third longer without.
#[cycle(walk_directory_walk_entry)]
pub(crate) fn walk_directory(
    disk: Disk,
    image: &[u8],
    map: Option<u32>,
    claim: &mut [u8],
    key: u32,
    mut n: Counts,
) -> Result<Counts, Refusal>
    requires { Ready disk image.now claim.old n × (key < disk.blocks) × SumsKnown disk image.now map }
    ensures { Walks disk image.now (slot_nodes image.now key 0 slots) [] n
        claim.old result claim.new }
{
    let mut used = used_slot(image, key, 0);
    'slots: while let Some(slot) = used {
        let mut entry = word_of(image, key, Block::FIRST_SLOT + slot as usize);
        let mut position = 0;
        'chain: while entry != 0 {
            let e = Entry {
                key: entry,
                directory: key,
                slot,
                position,
            };
            n = walk_entry(disk, image, map, claim, e, n)?;
            entry = next_entry(image, entry);
            position += 1;
        }
        used = used_slot(image, key, slot + 1);
    }
    Ok(n)
}
