// A block by itself: a copy of one, one word of it, its sum, and a bit of the bitmap block.
ghost use Rattle.std.specs.Prelude.{◌≡◌, ◌*◌, ◌<◌, ◌≤◌, length};
ghost use Rattle.words.specs.Sum.{block_words};
ghost use Rattle.words.specs.Word.{set_word};
ghost use Rattle.volume.specs.Blocks.{block_bytes, Holds};
ghost use Rattle.volume.specs.Disks.{first_key, most_blocks};
ghost use Rattle.writes.specs.Writes.{put, block_of, mended};
ghost use Rattle.writes.specs.Bits.{bit_of, with_bit, set_bit};

use volume::bitmap::Bit;
use volume::block::Block;
use words::{add_at, block_sum, copy, put_word, word};

// Block i of one area becomes block k of the other.
pub fn copy_block(from: &[u8], i: usize, to: &mut [u8], k: usize)
    requires { (Holds from.now i) × (Holds to.old k) }
    ensures { to.new ≡ put to.old k (block_of from.now i) }
{
    let source = i * Block::BYTES;
    let target = k * Block::BYTES;
    copy(
        &from[source..source + Block::BYTES],
        &mut to[target..target + Block::BYTES],
    );
}

// Mends the sum of a block in its word j.
pub fn mend(block: &mut [u8], j: usize)
    requires { (length block.old ≡ block_bytes) × (j < block_words) }
    ensures { block.new ≡ mended j block.old }
{
    let sum = block_sum(block, 0);
    add_at(block, 4 * j, std::num::wrapping_sub_u32(0, sum));
}

// The word in which a block's sum is mended.
pub const SUM: usize = 5;

// Stores v in word j of a block, and mends its sum.
pub fn edit(block: &mut [u8], j: usize, v: u32)
    requires { (length block.old ≡ block_bytes) × (j < block_words) }
    ensures { block.new ≡ mended 5 (set_word block.old (4 * j) v) }
{
    put_word(block, 4 * j, v);
    mend(block, SUM);
}

// A word with its bit `number` set to 1 or to 0.
fn with_bit(w: u32, number: u32, one: bool) -> u32
    requires { number < 32 }
    ensures { result ≡ with_bit w number (bit_of one) }
{
    let power = 1u32 << number;
    let old = (w >> number) % 2;
    if one {
        if old == 0 {
            return w + power;
        }
        return w;
    }
    if old == 0 {
        return w;
    }
    w - power
}

// Sets the bit of block `key` in the bitmap block `page`: 1 is free.
pub fn set_bit(page: &mut [u8], key: u32, free: bool)
    requires { (length page.old ≡ block_bytes) × (first_key ≤ key) × (key < most_blocks) }
    ensures { page.new ≡ set_bit page.old key (bit_of free) }
{
    let bit = Bit::of(key);
    let w = word(page, 4 * bit.word);
    put_word(page, 4 * bit.word, with_bit(w, bit.number, free));
}
