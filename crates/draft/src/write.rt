// One write more: its key, and its block as the writes before it leave it, with one word changed.
ghost use Rattle.std.specs.Prelude.{◌≡◌, ◌+◌, ◌*◌, ◌<◌, length};
ghost use Rattle.words.specs.Sum.{block_words};
ghost use Rattle.volume.specs.Blocks.{block_bytes, Holds};
ghost use Rattle.writes.specs.Writes.{put, block_of, carried, writes_in, edited};
ghost use Rattle.draft.specs.Parts.{Room, Drafts};

use crate::block::{copy_block, edit};
use volume::block::Block;

// Block i of `blocks` becomes block n.
fn copy_within(blocks: &mut [u8], i: usize, n: usize)
    requires { (Holds blocks.old i) × (Holds blocks.old n) }
    ensures { blocks.new ≡ put blocks.old n (block_of blocks.old i) }
{
    let mut block = [0u8; Block::BYTES];
    copy_block(blocks, i, &mut block, 0);
    copy_block(&block, 0, blocks, n);
}

// Block n of `blocks` becomes block `key` as the first n writes leave it: the last of them that names it, or else the
// image's own.
fn fetch(image: &[u8], order: &[u32], blocks: &mut [u8], n: usize, key: u32)
    requires { Room image.now order.now blocks.old n key }
    ensures { blocks.new
        ≡ put blocks.old n
        (block_of (carried image.now (writes_in order.now blocks.old n)) key) }
{
    for i in (0..n).rev() {
        if order[i] == key {
            copy_within(blocks, i, n);
            return;
        }
    }
    copy_block(image, key as usize, blocks, n);
}

// Stores v in word j of block n of `blocks`, and mends its sum.
fn edit_block(blocks: &mut [u8], n: usize, j: usize, v: u32)
    requires { (Holds blocks.old n) × (j < block_words) }
    ensures { blocks.new ≡ put blocks.old n (edited blocks.old n j v) }
{
    let from = n * Block::BYTES;
    let to = from + Block::BYTES;
    edit(&mut blocks[from..to], j, v);
}

// Write n: block `key` as the first n writes leave it.
pub fn draft(image: &[u8], order: &mut [u32], blocks: &mut [u8], n: usize, key: u32)
    requires { Room image.now order.old blocks.old n key }
    ensures { Drafts order.old blocks.old n key
        (block_of (carried image.now (writes_in order.old blocks.old n)) key)
        order.new blocks.new }
{
    fetch(image, order, blocks, n, key);
    order[n] = key;
}

// Write n: the same with v in its word j, and its sum mended.
pub fn draft_edited(
    image: &[u8],
    order: &mut [u32],
    blocks: &mut [u8],
    n: usize,
    key: u32,
    j: usize,
    v: u32,
)
    requires { (Room image.now order.old blocks.old n key) × (j < block_words) }
    ensures { Drafts order.old blocks.old n key
        (edited (carried image.now (writes_in order.old blocks.old n)) key j v)
        order.new blocks.new }
{
    draft(image, order, blocks, n, key);
    edit_block(blocks, n, j, v);
}
