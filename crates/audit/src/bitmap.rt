// The bitmap against the claims.
ghost use Rattle.std.specs.Prelude.{◌≡◌, ◌<◌, length};
ghost use Rattle.volume.specs.Disks.{Sized, image_bytes, claim_bytes};
ghost use Rattle.audit.specs.Bits.{bit_wrong, bits_of};

use answers::{Fault, Refusal};
use volume::bitmap::is_free;
use volume::disk::Disk;

// Whether a block's bit is wrong, by its claim byte.
fn bit_wrong(free: bool, byte: u8) -> bool
    ensures { result ≡ bit_wrong free byte }
{
    free == (byte != 0)
}

// How many blocks are free by the bitmap block `bitmap`, if every bit of it is right.
pub(crate) fn check_bits(
    disk: Disk,
    image: &[u8],
    bitmap: u32,
    claim: &[u8],
) -> Result<u32, Refusal>
    requires { Sized disk × (length image.now ≡ image_bytes disk) × (length claim.now ≡ claim_bytes disk)
        × (bitmap < disk.blocks) }
    ensures { result ≡ bits_of disk image.now bitmap claim.now }
{
    let mut free = 0;
    for key in Disk::FIRST_KEY..disk.blocks {
        let bit = is_free(image, bitmap, key);
        if bit_wrong(bit, claim[key as usize]) {
            return Err(Fault::WrongBit.at(key as usize));
        }
        free += u32::from(bit);
    }
    Ok(free)
}
