// The kinds of block, each with its place in the image, and the lines of its tests.
ghost use Rattle.std.specs.Prelude.{◌≡◌, ◌<◌, ◌≤◌, ⊤};

use crate::build::{IMAGE, block, fill, mend};
use answers::Fault;
use std::alloc::AllocError;
use std::io::Print;
use volume::disk::Disk;
use volume::file::data_fault;

// Where the blocks stand.
pub const DIRECTORY: u32 = 2;

pub const HEADER: u32 = 3;

pub const ROOT: u32 = 4;

pub const BITMAP: u32 = 5;

pub const LIST: u32 = 6;

pub const DATA: u32 = 7;

// What a block is tested as: the begin of its lines, its place, an image with a good block, and the test.
pub struct Kind<'a, F> {
    pub name: &'a str,
    pub key: u32,
    pub image: [u8; IMAGE],
    pub test: F,
    ghost inside: { key < 8 },
}

impl<F: Copy> Clone for Kind<'_, F> {
    ghost is_clone = { λ x y. (y.name ≡ x.name) × (y.key ≡ x.key) × (y.image ≡ x.image) × (y.test ≡ x.test) };

    ghost is_infallible = { λ _. ⊤ };

    fn clone(&self) -> Result<Self, AllocError> {
        Ok(Kind {
            name: self.name,
            key: self.key,
            image: self.image,
            test: self.test,
        })
    }
}

impl<F: Copy> Copy for Kind<'_, F> {}

impl<F: Fn(&[u8; IMAGE]) -> Result<(), Fault>> Kind<'_, F> {
    // The line of this image: the words that were changed, and the number of the first rule that its block breaks.
    fn line(&self, rt: &impl Print, changed: &[(usize, u32)], image: &[u8; IMAGE])
        requires { F.IsAlwaysCallable self.now.test }
    {
        for (w, value) in changed {
            let _ = print!(rt; " w{w} {value:08x}");
        }
        let number = match (self.test)(image) {
            Ok(()) => 0,
            Err(fault) => u32::from(fault),
        };
        let _ = println!(rt; " {number}");
    }

    // The line of the good block.
    pub fn good(&self, rt: &impl Print)
        requires { F.IsAlwaysCallable self.now.test }
    {
        let _ = rt.print(self.name);
        self.line(rt, &[], &self.image);
    }

    // The lines of the block with words changed, a few for each line.
    pub fn changed(&self, rt: &impl Print, all: &[&[(usize, u32)]])
        requires { F.IsAlwaysCallable self.now.test }
    {
        for changed in all {
            let mut image = self.image;
            fill(&mut image, self.key, changed);
            mend(&mut image, self.key);
            let _ = rt.print(self.name);
            self.line(rt, changed, &image);
        }
    }

    // The lines of the block with one word changed and its sum not mended.
    pub fn unmended(&self, rt: &impl Print, all: &[(usize, u32)])
        requires { F.IsAlwaysCallable self.now.test }
    {
        for changed in all {
            let changed = [*changed];
            let mut image = self.image;
            fill(&mut image, self.key, &changed);
            let _ = rt.print(self.name);
            let _ = rt.print(" unmended");
            self.line(rt, &changed, &image);
        }
    }
}

// The data block as number n of a file of `size` bytes, after the block `last`.
pub fn data_test(disk: Disk, image: &[u8; IMAGE], size: u32, n: u32, last: u32) -> Result<(), Fault>
    requires { (disk.blocks ≡ 8) × ((1 ≤ n) × (n < 1760)) × (last < 8) }
{
    if disk.file_limit() < size {
        return Err(Fault::FileLayout);
    }
    data_fault(disk, image, None, DATA, HEADER, size, n, last)
}

// A block with these words and the name "MARY".
pub fn mary(key: u32, words: &[(usize, u32)]) -> [u8; IMAGE]
    requires { key < 8 }
{
    let mut image = block(key, words);
    fill(&mut image, key, &[(108, 0x044D4152), (109, 0x59000000)]);
    mend(&mut image, key);
    image
}

// A header with these words 2, 4, 81 and 126, and the name "s".
pub fn header_block(count: u32, first: u32, size: u32, list: u32) -> [u8; IMAGE] {
    let mut image = block(
        HEADER,
        &[
            (0, 2),
            (1, HEADER),
            (108, 0x01730000),
            (125, ROOT),
            (127, 0xFFFFFFFD),
        ],
    );
    fill(
        &mut image,
        HEADER,
        &[(2, count), (4, first), (81, size), (126, list)],
    );
    mend(&mut image, HEADER);
    image
}

// A data block with these words 2, 3 and 4, which w4 of the header names.
pub fn data_block(number: u32, held: u32, following: u32) -> [u8; IMAGE] {
    let mut image = block(
        DATA,
        &[(0, 8), (1, HEADER), (2, number), (3, held), (4, following)],
    );
    fill(&mut image, HEADER, &[(4, DATA)]);
    image
}
