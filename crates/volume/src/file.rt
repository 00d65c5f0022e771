// Files: how many blocks a size takes, and the tests of headers, list blocks and data blocks.
ghost use Rattle.std.specs.Prelude.{◌≡◌, ◌≤◌, ◌<◌};
ghost use Rattle.answers.specs.Refusals.{told};
ghost use Rattle.answers.specs.Tests.{tests};
ghost use Rattle.volume.specs.Disks.{Sized, most_blocks, file_limit};
ghost use Rattle.volume.specs.Blocks.{slots, Holds, word_of, key_word};
ghost use Rattle.volume.specs.Files.{keys_here, list_blocks, last_keys};
ghost use Rattle.volume.specs.Sums.{Testable};
ghost use Rattle.volume.specs.Rules.{count_rules, empty_rules, file_fault, list_words, list_fault, data_words};
ghost use Rattle.volume.specs.Rules.{data_links, data_rules, data_fault};

use crate::block::{Block, word_of};
use crate::disk::Disk;
use crate::sums::known_sum;
use answers::Fault;

const SLOTS: u32 = Block::SLOTS as u32;

// Of n keys still to come, how many the header or the next list block has.
pub fn keys_here(n: u32) -> u32
    ensures { result ≡ keys_here n }
{
    n.min(SLOTS)
}

// The list blocks of a file of n data blocks.
pub fn list_blocks(n: u32) -> u32
    ensures { result ≡ list_blocks n }
{
    if n == 0 {
        return 0;
    }
    (n - 1) / SLOTS
}

// The keys in the last block that lists any.
pub fn last_keys(n: u32) -> u32
    ensures { result ≡ last_keys n }
{
    n - SLOTS * list_blocks(n)
}

// Data key i of a header or a list block, counted from 0.
pub fn key_of(image: &[u8], key: u32, i: usize) -> u32
    requires { (i < slots) × Holds image.now key }
    ensures { result ≡ key_word image.now key i }
{
    word_of(image, key, Block::DATA_KEYS - i)
}

// A block that lists keys, n of them still to come.
fn count_fault(image: &[u8], key: u32, n: u32) -> Result<(), Fault>
    requires { Holds image.now key }
    ensures { told result ≡ tests (count_rules image.now key n) }
{
    if word_of(image, key, Block::COUNT) != keys_here(n) {
        return Err(Fault::FileLayout);
    }
    let more = word_of(image, key, Block::LIST);
    if n <= SLOTS {
        if more != 0 {
            return Err(Fault::FileLayout);
        }
        return Ok(());
    }
    if more == 0 {
        return Err(Fault::FileLayout);
    }
    Ok(())
}

// An empty file of the old file system names no first data block.
fn empty_fault(disk: Disk, image: &[u8], key: u32, n: u32) -> Result<(), Fault>
    requires { Holds image.now key }
    ensures { told result ≡ tests (empty_rules disk image.now key n) }
{
    if disk.is_old() {
        if n != 0 {
            return Ok(());
        }
        if word_of(image, key, Block::FIRST_DATA) != 0 {
            return Err(Fault::FileLayout);
        }
        return Ok(());
    }
    Ok(())
}

// A file's own tests, of its header.
pub fn file_fault(disk: Disk, image: &[u8], key: u32) -> Result<(), Fault>
    requires { Sized disk × Holds image.now key }
    ensures { told result ≡ file_fault disk image.now key }
{
    let size = word_of(image, key, Block::SIZE);
    if disk.file_limit() < size {
        return Err(Fault::FileLayout);
    }
    let n = disk.data_blocks(size);
    count_fault(image, key, n)?;
    empty_fault(disk, image, key, n)
}

// Sum, types, own key and header of a list block.
fn list_words_fault(
    disk: Disk,
    image: &[u8],
    map: Option<u32>,
    key: u32,
    header: u32,
) -> Result<(), Fault>
    requires { Testable disk image.now map key }
    ensures { told result ≡ tests (list_words image.now key header) }
{
    if known_sum(disk, image, map, key) != 0 {
        return Err(Fault::BlockSum);
    }
    if word_of(image, key, Block::TYPE) != Block::LIST_TYPE {
        return Err(Fault::BlockType);
    }
    if word_of(image, key, Block::KIND) != Block::FILE {
        return Err(Fault::BlockType);
    }
    if word_of(image, key, Block::OWN_KEY) != key {
        return Err(Fault::WrongTies);
    }
    if word_of(image, key, Block::PARENT) != header {
        return Err(Fault::WrongTies);
    }
    Ok(())
}

// A list block of a file, n keys still to come; `map` has what is known of sums.
pub fn list_fault(
    disk: Disk,
    image: &[u8],
    map: Option<u32>,
    key: u32,
    header: u32,
    n: u32,
) -> Result<(), Fault>
    requires { Testable disk image.now map key }
    ensures { told result ≡ list_fault image.now key header n }
{
    list_words_fault(disk, image, map, key, header)?;
    count_fault(image, key, n)
}

// Sum, type, header, number and bytes held of data block n.
fn data_words_fault(
    disk: Disk,
    image: &[u8],
    map: Option<u32>,
    key: u32,
    header: u32,
    size: u32,
    n: u32,
) -> Result<(), Fault>
    requires { Testable disk image.now map key × ((1 ≤ n) × (n ≤ most_blocks)) }
    ensures { told result ≡ tests (data_words disk image.now key header size n) }
{
    if known_sum(disk, image, map, key) != 0 {
        return Err(Fault::BlockSum);
    }
    if word_of(image, key, Block::TYPE) != Block::DATA_TYPE {
        return Err(Fault::BlockType);
    }
    if word_of(image, key, Block::HEADER) != header {
        return Err(Fault::DataLayout);
    }
    if word_of(image, key, Block::NUMBER) != n {
        return Err(Fault::DataLayout);
    }
    if word_of(image, key, Block::HELD) != disk.held(size, n) {
        return Err(Fault::DataLayout);
    }
    Ok(())
}

// The key that the block before data block n names, and what data block n names.
fn data_links_fault(
    disk: Disk,
    image: &[u8],
    key: u32,
    size: u32,
    n: u32,
    named: u32,
) -> Result<(), Fault>
    requires { Sized disk × (size ≤ file_limit disk) × Holds image.now key }
    ensures { told result ≡ tests (data_links disk image.now key size n named) }
{
    if named != key {
        return Err(Fault::DataLayout);
    }
    if n != disk.data_blocks(size) {
        return Ok(());
    }
    if word_of(image, key, Block::FOLLOWING) != 0 {
        return Err(Fault::DataLayout);
    }
    Ok(())
}

// The words of data block n of a file of `size` bytes; `named` is the key that the block before it names.
fn data_rules_fault(
    disk: Disk,
    image: &[u8],
    map: Option<u32>,
    key: u32,
    header: u32,
    size: u32,
    n: u32,
    named: u32,
) -> Result<(), Fault>
    requires { Testable disk image.now map key × (size ≤ file_limit disk) × (1 ≤ n) × (n ≤ most_blocks) }
    ensures { told result ≡ tests (data_rules disk image.now key header size n named) }
{
    data_words_fault(disk, image, map, key, header, size, n)?;
    data_links_fault(disk, image, key, size, n, named)
}

// Data block n of a file of `size` bytes; `last` is the data block before it, or the header, and `map` has what is
// known of sums. On the Fast File System nothing is tested, and neither block is looked at.
pub fn data_fault(
    disk: Disk,
    image: &[u8],
    map: Option<u32>,
    key: u32,
    header: u32,
    size: u32,
    n: u32,
    last: u32,
) -> Result<(), Fault>
    requires { Testable disk image.now map key × (size ≤ file_limit disk) × Holds image.now last × (1 ≤ n)
        × (n ≤ most_blocks) }
    ensures { told result ≡ data_fault disk image.now key header size n (word_of image.now last 4) }
{
    let has_words = disk.is_old();
    if has_words {
        let named = word_of(image, last, Block::FOLLOWING);
        return data_rules_fault(disk, image, map, key, header, size, n, named);
    }
    Ok(())
}
