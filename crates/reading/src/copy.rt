// A file's bytes from an offset on, copied out of its data blocks. These are found by the keys that the header and the
// list blocks list.
ghost use Rattle.std.specs.Prelude.{◌≡◌, ◌+◌, ◌-◌, ◌≤◌, ◌<◌, length, drop};
ghost use Rattle.std.proofs.Math.Seq.{paste};
ghost use Rattle.volume.specs.Blocks.{slots, Holds};
ghost use Rattle.volume.specs.Disks.{Sized, image_bytes};
ghost use Rattle.volume.specs.Files.{size_of};
ghost use Rattle.reading.specs.Bytes.{data_byte, file_bytes};
ghost use Rattle.reading.specs.Parts.{BlocksInside, WayHeld, IsListed, Steps, Copied};

use volume::block::{Block, word_of};
use volume::disk::Disk;
use volume::file::key_of;

// Where a data key of a file is listed: in the header or a list block, and which of its keys, counted from 0.
#[derive(Clone, Copy)]
struct Listed {
    block: u32,
    index: usize,
}

// The first byte of a data block's data.
fn data_byte(disk: Disk, key: u32) -> usize
    ensures { result ≡ data_byte disk key }
{
    Block::byte(key, 0) + disk.data_start() as usize
}

impl Listed {
    // Data key n of a file, counted from 0: the way goes over its list blocks.
    fn seek(image: &[u8], header: u32, n: usize) -> Listed
        requires { WayHeld image.now header n }
        ensures { IsListed image.now header n result }
    {
        let mut block = header;
        for _ in 0..n / Block::SLOTS {
            block = word_of(image, block, Block::LIST);
        }
        Listed {
            block,
            index: n % Block::SLOTS,
        }
    }

    // The next data key: after a block's last key, in the list block that it names. After the file's last key that may
    // be no block; nothing is read there.
    fn next(self, image: &[u8]) -> Listed
        requires { (self.index < slots) × Holds image.now self.block }
        ensures { Steps image.now self result }
    {
        let index = self.index + 1;
        if index < Block::SLOTS {
            return Listed { index, ..self };
        }
        Listed {
            block: word_of(image, self.block, Block::LIST),
            index: 0,
        }
    }
}

// Copies what a tested file has after `offset`, as much as there is room for, and gives the number of bytes.
pub(crate) fn copy_file(
    disk: Disk,
    image: &[u8],
    header: u32,
    size: u32,
    offset: usize,
    output: &mut [u8],
) -> usize
    requires { (Sized disk) × (length image.now ≡ image_bytes disk) × (header < disk.blocks)
        × (size ≡ size_of image.now header) × (BlocksInside disk image.now header) }
    ensures { Copied (file_bytes disk image.now header) offset output.old result
        output.new }
{
    let left = (size as usize).saturating_sub(offset);
    let count = output.len().min(left);
    if count == 0 {
        return 0;
    }
    let bytes = disk.data_bytes() as usize;
    let mut at = Listed::seek(image, header, offset / bytes);
    let mut within = offset % bytes;
    let mut done = 0;
    while done < count {
        let key = key_of(image, at.block, at.index);
        let n = (bytes - within).min(count - done);
        let from = data_byte(disk, key) + within;
        words::copy(&image[from..from + n], &mut output[done..done + n]);
        at = at.next(image);
        within = 0;
        done += n;
    }
    count
}
