// A disk: what kinds and sizes of disk differ in.
ghost use Rattle.std.specs.Prelude.{◌≡◌, ◌+◌, ◌-◌, ◌*◌, ◌/◌, ◌<◌, ◌≤◌, length, eqb};
ghost use Rattle.words.specs.Word.{word_at};
ghost use Rattle.volume.specs.Disks.{Sized, most_blocks, is_old, folds_accents, image_bytes, claim_bytes};
ghost use Rattle.volume.specs.Disks.{tag_of, root_of, in_range, bit_span, chain_limit, data_bytes, data_start};
ghost use Rattle.volume.specs.Disks.{file_limit, size_in, other_size, size_for, kind_in, disk_of};
ghost use Rattle.volume.specs.Files.{data_blocks, held_of};

use crate::block::Block;

// The number of its blocks, and the last byte of its boot tag.
// The kind is a byte and no enum, since every function of a disk answers for each byte, its tag with it.
#[derive(Clone, Copy, Debug, PartialEq, Eq)]
pub struct Disk {
    pub blocks: u32,
    pub kind: u8,
}

// The size that an image has by its length; that of double density where its length is of no size.
fn size_in(image: &[u8]) -> u32
    ensures { result ≡ size_in image.now }
{
    if image.len() == Disk::HIGH_DENSITY as usize * Block::BYTES {
        return Disk::HIGH_DENSITY;
    }
    Disk::DOUBLE_DENSITY
}

fn other_size(blocks: u32) -> u32
    ensures { result ≡ other_size blocks }
{
    if blocks == Disk::DOUBLE_DENSITY {
        return Disk::HIGH_DENSITY;
    }
    Disk::DOUBLE_DENSITY
}

// The size for a call that names `named`: the image's own, where it is named or none is, else the other one.
fn size_for(named: u32, image: &[u8]) -> u32
    ensures { result ≡ size_for named image.now }
{
    let own = size_in(image);
    if named == Disk::ANY_SIZE {
        return own;
    }
    if named == own {
        return named;
    }
    other_size(own)
}

// The kind that an image's first word names by its last byte, and the old file system where it names none.
fn kind_in(image: &[u8]) -> u8
    ensures { result ≡ kind_in image.now }
{
    if image.len() < 4 {
        return Disk::OLD;
    }
    let last = words::word(image, 0) % 256;
    if last <= Disk::FAST_INTERNATIONAL as u32 {
        return last as u8;
    }
    Disk::OLD
}

impl Disk {
    // The old file system.
    pub const OLD: u8 = 0;

    // The Fast File System.
    pub const FAST: u8 = 1;

    // The same two, with letters with accents folded as well; there are no further kinds.
    pub const OLD_INTERNATIONAL: u8 = 2;

    pub const FAST_INTERNATIONAL: u8 = 3;

    // 880 KB, in blocks.
    pub const DOUBLE_DENSITY: u32 = 1760;

    // 1,760 KB; there are no further sizes.
    pub const HIGH_DENSITY: u32 = 3520;

    // What a call names in place of a size, to take either: a number, since C names it.
    pub const ANY_SIZE: u32 = 0;

    // The two boot blocks have no key.
    pub const FIRST_KEY: u32 = 2;

    // The disk that a call that names `named` takes an image for, by the image's length and the last byte of its
    // first word. Where the length does not fit, the image is not as long as that disk; where the tag is of no kind, it
    // does not have that disk's tag.
    pub fn of(named: u32, image: &[u8]) -> Disk
        ensures { result ≡ disk_of named image.now }
    {
        Disk {
            blocks: size_for(named, image),
            kind: kind_in(image),
        }
    }

    // Whether it is of the old file system, whose data blocks have words of their own.
    pub fn is_old(self) -> bool
        ensures { result ≡ is_old self }
    {
        if self.kind == Disk::OLD {
            return true;
        }
        self.kind == Disk::OLD_INTERNATIONAL
    }

    // Whether letters with accents are folded.
    pub fn folds_accents(self) -> bool
        ensures { result ≡ folds_accents self }
    {
        if self.kind == Disk::OLD_INTERNATIONAL {
            return true;
        }
        self.kind == Disk::FAST_INTERNATIONAL
    }

    // How long its image is.
    pub fn image_bytes(self) -> usize
        ensures { result ≡ image_bytes self }
    {
        self.blocks as usize * Block::BYTES
    }

    // How long a claim area must be.
    pub fn claim_bytes(self) -> usize
        ensures { result ≡ claim_bytes self }
    {
        self.blocks as usize
    }

    // The first word of its image.
    pub fn tag(self) -> u32
        ensures { result ≡ tag_of self }
    {
        words::join(b'D', b'O', b'S', self.kind)
    }

    pub fn root(self) -> u32
        ensures { result ≡ root_of self }
    {
        Block::root(self.blocks)
    }

    pub fn in_range(self, key: u32) -> bool
        ensures { result ≡ in_range self key }
    {
        if key < Disk::FIRST_KEY {
            return false;
        }
        key < self.blocks
    }

    // How many blocks have a bit in the bitmap.
    pub fn bit_span(self) -> u32
        requires { Sized self }
        ensures { result ≡ bit_span self }
    {
        self.blocks - Disk::FIRST_KEY
    }

    // The most entries that a chain has.
    pub fn chain_limit(self) -> u32
        requires { Sized self }
        ensures { result ≡ chain_limit self }
    {
        self.blocks - 4
    }

    // How many bytes of a file a data block holds.
    pub fn data_bytes(self) -> u32
        ensures { (result ≡ data_bytes self) × ((1 ≤ result) × (result ≤ 512)) }
    {
        if self.is_old() {
            return Block::DATA as u32;
        }
        Block::BYTES as u32
    }

    // The byte of a data block at which they begin.
    pub fn data_start(self) -> u32
        ensures { result ≡ data_start self }
    {
        Block::BYTES as u32 - self.data_bytes()
    }

    // The most bytes that a file has.
    pub fn file_limit(self) -> u32
        requires { Sized self }
        ensures { result ≡ file_limit self }
    {
        (self.blocks - 5) * self.data_bytes()
    }

    // The data blocks of a file of `size` bytes. Each case divides by a constant: the compiler multiplies instead.
    pub fn data_blocks(self, size: u32) -> u32
        requires { Sized self × (size ≤ file_limit self) }
        ensures { result ≡ data_blocks self size }
    {
        if self.is_old() {
            return (size + (Block::DATA as u32 - 1)) / Block::DATA as u32;
        }
        (size + (Block::BYTES as u32 - 1)) / Block::BYTES as u32
    }

    // How many bytes data block n of a file of `size` bytes holds.
    pub fn held(self, size: u32, n: u32) -> u32
        requires { (1 ≤ n) × (n ≤ most_blocks) }
        ensures { result ≡ held_of self size n }
    {
        let full = self.data_bytes();
        let before = (n - 1) * full;
        if size < before {
            return 0;
        }
        if full <= size - before {
            return full;
        }
        size - before
    }

    // Whether an image begins with its boot tag.
    pub fn has_tag(self, image: &[u8]) -> bool
        requires { 4 ≤ length image.now }
        ensures { result ≡ eqb (word_at image.now 0) (tag_of self) }
    {
        words::word(image, 0) == self.tag()
    }
}
