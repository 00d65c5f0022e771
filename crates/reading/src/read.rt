// A read: a path to a file, the tests of its blocks, and its bytes from an offset on.
ghost use Rattle.std.specs.Prelude.{◌≡◌};
ghost use Rattle.volume.specs.Disks.{Sized, disk_of};
ghost use Rattle.reading.specs.Reads.{last_component, Reads};

use crate::blocks::test_file;
use crate::copy::copy_file;
use answers::{Fault, Refusal};
use lookup::find::{Found, find_on};
use volume::disk::Disk;

// The number of the last component of a path, and 0 for the empty path: there is a '/' before each but the first.
fn last_component(path: &[u8]) -> usize
    ensures { result ≡ last_component path.now }
{
    path.iter().filter(|&&b| b == b'/').count()
}

// Reads a file of a disk's image from `offset` on, as much as there is room for. Output after what was read stays,
// and all of it where the read is refused.
fn read_on(
    disk: Disk,
    image: &[u8],
    path: &[u8],
    offset: usize,
    output: &mut [u8],
) -> Result<usize, Refusal>
    requires { Sized disk }
    ensures { Reads disk image.now path.now offset output.old result
        output.new }
{
    let Found::File { key, size, .. } = find_on(disk, image, path)? else {
        return Err(Fault::WrongKind.at(last_component(path)));
    };
    test_file(disk, image, key)?;
    Ok(copy_file(disk, image, key, size, offset, output))
}

// Reads a file of an image: that of a disk of the `named` number of blocks, or of either size where 0 is named, and of
// the kind that its boot tag names.
pub fn read(
    named: u32,
    image: &[u8],
    path: &[u8],
    offset: usize,
    output: &mut [u8],
) -> Result<usize, Refusal>
    ensures { Reads (disk_of named image.now) image.now path.now offset
        output.old result output.new }
{
    let disk = Disk::of(named, image);
    read_on(disk, image, path, offset, output)
}
