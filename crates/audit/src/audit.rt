// The audit of a disk's image.
ghost use Rattle.std.specs.Prelude.{◌≡◌, ◌+◌, ◌≤◌, length, replicate};
ghost use Rattle.volume.specs.Disks.{Sized, most_blocks, image_bytes, claim_bytes, disk_of};
ghost use Rattle.audit.specs.Walks.{total};
ghost use Rattle.audit.specs.Audits.{report_of, Audits};
ghost use Rattle.audit.specs.Parts.{Fresh, Within, Tagged};

use crate::bitmap::check_bits;
use crate::top::walk_volume;
use answers::{Fault, Refusal};
use volume::block::{Block, word_of};
use volume::disk::Disk;
use walk::Counts;

// How much there is of what: directories without the root, files, list blocks, data blocks; then all blocks in use,
// and those that are free.
#[derive(Clone, Copy, Debug, PartialEq, Eq)]
pub struct Report {
    pub directories: u32,
    pub files: u32,
    pub lists: u32,
    pub blocks: u32,
    pub used: u32,
    pub free: u32,
}

impl Report {
    fn of(c: Counts, free: u32) -> Report
        requires { total c ≤ most_blocks }
        ensures { result ≡ report_of c free }
    {
        Report {
            directories: c.directories,
            files: c.files,
            lists: c.lists,
            blocks: c.blocks,
            used: c.directories + c.files + c.lists + c.blocks + 2,
            free,
        }
    }
}

// The walk and the bitmap; the claim area has a byte for each block, all 0.
fn audit_within(disk: Disk, image: &[u8], claim: &mut [u8]) -> Result<Report, Refusal>
    requires { Sized disk × (length image.now ≡ image_bytes disk) × (claim.old ≡ replicate (claim_bytes disk) 0) }
    ensures { Within disk image.now result claim.new }
{
    let c = walk_volume(disk, image, claim)?;
    let bitmap = word_of(image, disk.root(), Block::MAP_KEY);
    let free = check_bits(disk, image, bitmap, claim)?;
    Ok(Report::of(c, free))
}

// The same in a longer area, which is all 0 and comes back so where it refuses.
fn audit_tagged(disk: Disk, image: &[u8], area: &mut [u8]) -> Result<Report, Refusal>
    requires { Sized disk × (length image.now ≡ image_bytes disk) × Fresh disk area.old }
    ensures { Tagged disk image.now (length area.old) result area.new }
{
    let n = disk.claim_bytes();
    let r = audit_within(disk, image, &mut area[..n]);
    if r.is_err() {
        area[..n].fill(0);
    }
    r
}

// Audits the image of a disk. The whole claim area is written: 1 for each block that is reached, and 0 elsewhere;
// all 0 where it refuses.
fn audit_on(disk: Disk, image: &[u8], claim: &mut [u8]) -> Result<Report, Refusal>
    requires { Sized disk }
    ensures { Audits disk image.now (length claim.old) result claim.new }
{
    claim.fill(0);
    if image.len() != disk.image_bytes() {
        return Err(Fault::ImageLength.at(0));
    }
    if claim.len() < disk.claim_bytes() {
        return Err(Fault::ClaimArea.at(0));
    }
    if !disk.has_tag(image) {
        return Err(Fault::BootTag.at(0));
    }
    audit_tagged(disk, image, claim)
}

// Audits an image: that of a disk of the `named` number of blocks, or of either size where 0 is named, and of the kind
// that its boot tag names.
pub fn audit(named: u32, image: &[u8], claim: &mut [u8]) -> Result<Report, Refusal>
    ensures { Audits (disk_of named image.now) image.now (length claim.old) result
        claim.new }
{
    let disk = Disk::of(named, image);
    audit_on(disk, image, claim)
}
