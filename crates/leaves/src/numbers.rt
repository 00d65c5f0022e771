// Words, sums, bits, sizes and the numbers of a disk.
ghost use Rattle.std.specs.Prelude.{◌<◌, ◌≤◌};
ghost use Rattle.volume.specs.Disks.{Sized, most_blocks};

use crate::build::{IMAGE, block, fill, mend, of_kind};
use console::rooms;
use console::rooms::room;
use std::io::Print;
use volume::bitmap::{Bit, is_free};
use volume::block::{Block, sum_of};
use volume::disk::Disk;
use volume::file::{keys_here, last_keys, list_blocks};

// The words at 0, 2 and 4, where the middle one straddles the others.
fn three(rt: &impl Print, bytes: &[u8; 8]) {
    let _ = print!(rt; "word");
    for at in 0..3 {
        let word = words::word(bytes, 2 * at);
        let _ = print!(rt; " {word:08x}");
    }
    let _ = println!(rt;);
}

pub fn words(rt: &impl Print) {
    let mut bytes: [u8; 8] = [0x01, 0x02, 0x03, 0x04, 0xFD, 0xFE, 0xFF, 0x00];
    three(rt, &bytes);
    words::put_word(&mut bytes, 2, 0xDEADBEEF);
    three(rt, &bytes);
    words::add_at(&mut bytes, 2, 0x3000);
    three(rt, &bytes);
    words::put_word(&mut bytes, 2, 0xFFFFFFFF);
    three(rt, &bytes);
    words::add_at(&mut bytes, 2, 4);
    three(rt, &bytes);
}

fn sum(rt: &impl Print, image: &[u8; IMAGE], key: u32)
    requires { key < 8 }
{
    let sum = sum_of(image, key);
    let _ = println!(rt; "sum {key} {sum:08x}");
}

// Two blocks whose words wrap, the sum of 128 words from the last of block 1 on, and a block whose sum was mended.
pub fn sums(rt: &impl Print) {
    let mut image = [0u8; IMAGE];
    fill(&mut image, 2, &[(0, 0xFFFFFFFF), (127, 4)]);
    fill(
        &mut image,
        3,
        &[(0, 0x80000000), (64, 0x80000000), (127, 1)],
    );
    for key in 1..5 {
        sum(rt, &image, key);
    }
    let part = words::block_sum(&image, 1020);
    let _ = println!(rt; "sum part {part:08x}");
    mend(&mut image, 2);
    sum(rt, &image, 2);
}

fn bit(rt: &impl Print, key: u32)
    requires { 2 ≤ key }
{
    let Bit { word, number } = Bit::of(key);
    let _ = println!(rt; "bit {key} {word} {number}");
}

// Whether a block is free where one word of the bitmap is not 0.
fn free(rt: &impl Print, w: usize, value: u32, key: u32)
    requires { (2 ≤ key) × (key < 1760) }
{
    let image = block(7, &[(w, value)]);
    let free = u8::from(is_free(&image, 7, key));
    let _ = println!(rt; "free {key} {free}");
}

pub fn bits(rt: &impl Print) {
    for key in [2, 33, 34, 880, 1759, 3519] {
        bit(rt, key);
    }
    for key in [848, 879, 880, 881, 912] {
        free(rt, 28, 0x4000, key);
    }
    for key in [2, 32, 33, 34, 65] {
        free(rt, 1, 0x80000000, key);
    }
}

// Data blocks, keys in the header, list blocks, and keys in the last block that has any.
fn size(rt: &impl Print, disk: Disk, bytes: u32)
    requires { Sized disk }
{
    if bytes <= disk.file_limit() {
        let kind = disk.kind;
        let n = disk.data_blocks(bytes);
        let (here, lists, last) = (keys_here(n), list_blocks(n), last_keys(n));
        let _ = println!(rt; "size {kind} {bytes} {n} {here} {lists} {last}");
    }
}

// The files of a disk of each file system: none, and 1, 72, 73, 144 and 145 data blocks; the largest.
pub fn sizes(rt: &impl Print) {
    let old = Disk {
        blocks: 3520,
        kind: 0,
    };
    for bytes in [
        0, 1, 488, 489, 35136, 35137, 70272, 70273, 856440, 856441, 1715320,
    ] {
        size(rt, old, bytes);
    }
    let fast = Disk {
        blocks: 3520,
        kind: 1,
    };
    for bytes in [
        0, 1, 512, 513, 36864, 36865, 73728, 73729, 898560, 898561, 1799680,
    ] {
        size(rt, fast, bytes);
    }
}

// The bytes that data block n of a file holds.
fn hold(rt: &impl Print, bytes: u32, n: u32)
    requires { (1 ≤ n) × (n ≤ most_blocks) }
{
    let held = of_kind(Disk::OLD).held(bytes, n);
    let _ = println!(rt; "held {bytes} {n} {held}");
}

pub fn held(rt: &impl Print) {
    hold(rt, 1, 1);
    hold(rt, 488, 1);
    hold(rt, 489, 1);
    hold(rt, 489, 2);
    hold(rt, 976, 2);
    hold(rt, 1000, 3);
    hold(rt, 35137, 72);
    hold(rt, 35137, 73);
    hold(rt, 856439, 1755);
    hold(rt, 856440, 1755);
    hold(rt, 1715320, 3515);
}

// The numbers of a disk: its blocks and kind; image bytes, claim bytes, root, blocks with a bit, entries on a chain;
// how many bytes of a file a data block holds, where they begin, and the largest size of a file.
fn numbers(rt: &impl Print, disk: Disk)
    requires { Sized disk }
{
    let Disk { blocks, kind } = disk;
    let (image, claim) = (disk.image_bytes(), disk.claim_bytes());
    let (root, span, chain) = (disk.root(), disk.bit_span(), disk.chain_limit());
    let (held, start, most) = (disk.data_bytes(), disk.data_start(), disk.file_limit());
    let _ = print!(rt; "disk {blocks} {kind} {image} {claim} {root} {span} {chain}");
    let _ = println!(rt; " {held} {start} {most}");
}

// The disks of each kind that have so many blocks.
fn of_size(rt: &impl Print, blocks: u32)
    requires { (8 ≤ blocks) × (blocks ≤ most_blocks) }
{
    for kind in 0..4 {
        numbers(rt, Disk { blocks, kind });
    }
}

// The size that a call takes an image for which names in turn no number, each size, and a number that is no size.
fn taken(rt: &impl Print, image: &[u8]) {
    let length = image.len();
    for named in [0, 1760, 3520, 880] {
        let blocks = Disk::of(named, image).blocks;
        let _ = println!(rt; "taken {named} {length} {blocks}");
    }
}

// Whether four bytes are the tag of a disk of each kind, and the kind that they are taken for.
fn tagged(rt: &impl Print, bytes: [u8; 4]) {
    let word = u32::from_be_bytes(bytes);
    let _ = print!(rt; "tagged {word:08x}");
    for kind in 0..4 {
        let has = u8::from(of_kind(kind).has_tag(&bytes));
        let _ = print!(rt; " {has}");
    }
    let kind = Disk::of(0, &bytes).kind;
    let _ = println!(rt; " {kind}");
}

// Whether a key is one of a disk of so many blocks.
fn key(rt: &impl Print, blocks: u32, key: u32) {
    let disk = Disk { blocks, kind: 0 };
    let within = u8::from(disk.in_range(key));
    let _ = println!(rt; "key {blocks} {key} {within}");
}

pub fn disk(rt: &impl Print) {
    of_size(rt, 1760);
    of_size(rt, 3520);
    let room: [u8; rooms::IMAGE] = room(0);
    for length in [1802240, 1802239, 901121, 901120, 0] {
        if let Some(image) = room.get(..length) {
            taken(rt, image);
        }
    }
    let place = Block::byte(880, 127);
    let _ = println!(rt; "place 880 w127 {place}");
    let tag = of_kind(Disk::OLD).tag();
    let _ = println!(rt; "tag {tag:08x}");
    for bytes in [
        *b"DOS\x00",
        *b"DOS\x01",
        *b"DOS\x02",
        *b"DOS\x03",
        *b"DOS\x04",
        *b"DOS\xFF",
        *b"DOs\x00",
        *b"DOs\x02",
        *b"\x00SOD",
    ] {
        tagged(rt, bytes);
    }
    for k in [0, 1, 2, 1759, 1760, 0xFFFFFFFF] {
        key(rt, 1760, k);
    }
    for k in [1, 2, 3519, 3520] {
        key(rt, 3520, k);
    }
}
