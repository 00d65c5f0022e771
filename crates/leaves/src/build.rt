// An image of eight blocks, in which a block of each kind is built.
ghost use Rattle.std.specs.Prelude.{◌<◌};

use volume::block::{Block, sum_of};
use volume::disk::Disk;

// How long the image is.
pub const IMAGE: usize = 4096;

// The word that mends a block's sum.
const SUM: usize = 5;

// A disk of 1,760 blocks.
pub fn of_kind(kind: u8) -> Disk {
    Disk {
        blocks: Disk::DOUBLE_DENSITY,
        kind,
    }
}

// Stores word w of a block, counted modulo 128.
fn put(image: &mut [u8; IMAGE], key: u32, w: usize, value: u32)
    requires { key < 8 }
{
    words::put_word(image, Block::byte(key, w % 128), value);
}

// Mends the sum of a block.
pub fn mend(image: &mut [u8; IMAGE], key: u32)
    requires { key < 8 }
{
    put(image, key, SUM, 0);
    let sum = sum_of(image, key);
    put(image, key, SUM, sum.wrapping_neg());
}

// Stores some words of a block: which word, and its value.
pub fn fill(image: &mut [u8; IMAGE], key: u32, words: &[(usize, u32)])
    requires { key < 8 }
{
    for (w, value) in words {
        put(image, key, *w, *value);
    }
}

// An image in which one block has these words and a good sum, and all else is 0.
pub fn block(key: u32, words: &[(usize, u32)]) -> [u8; IMAGE]
    requires { key < 8 }
{
    let mut image = [0u8; IMAGE];
    fill(&mut image, key, words);
    mend(&mut image, key);
    image
}
