// The bitmap block's bit of a block.
ghost use Rattle.std.specs.Prelude.{◌≡◌, ◌<◌, ◌≤◌};
ghost use Rattle.volume.specs.Disks.{first_key, most_blocks};
ghost use Rattle.volume.specs.Blocks.{Holds};
ghost use Rattle.volume.specs.Bitmap.{bit_word, bit_number, is_free};

use crate::block::word_of;
use crate::disk::Disk;

// A word of the bitmap block, and the number of a bit in it, counted from the lowest.
#[derive(Clone, Copy, Debug, PartialEq, Eq)]
pub struct Bit {
    pub word: usize,
    pub number: u32,
}

impl Bit {
    // Where a block has its bit.
    pub fn of(key: u32) -> Bit
        requires { first_key ≤ key }
        ensures { (result.word ≡ bit_word key) × (result.number ≡ bit_number key) }
    {
        Bit {
            word: 1 + ((key - Disk::FIRST_KEY) / 32) as usize,
            number: (key - Disk::FIRST_KEY) % 32,
        }
    }
}

// Whether the bitmap block `bitmap` says that a block is free.
pub fn is_free(image: &[u8], bitmap: u32, key: u32) -> bool
    requires { (first_key ≤ key) × (key < most_blocks) × Holds image.now bitmap }
    ensures { result ≡ is_free image.now bitmap key }
{
    let bit = Bit::of(key);
    let w = word_of(image, bitmap, bit.word);
    (w >> bit.number) % 2 == 1
}
