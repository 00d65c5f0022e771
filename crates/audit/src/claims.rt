// The claim area: a byte for each block, 1 where the walk has met it. A block that is met is claimed, and then tested.
ghost use Rattle.std.specs.Prelude.{◌≡◌, ◌≤◌, ◌<◌, length};
ghost use Rattle.answers.specs.Refusals.{told};
ghost use Rattle.volume.specs.Disks.{first_key, claim_bytes};
ghost use Rattle.audit.specs.Walks.{Claims, Meets};

use answers::{Fault, Refusal};
use volume::disk::Disk;

// Claims a key that lies in the volume and is not claimed yet.
fn claim_key(disk: Disk, claim: &mut [u8], key: u32) -> Result<(), Fault>
    requires { length claim.old ≡ claim_bytes disk }
    ensures { Claims disk claim.old key (told result) claim.new }
{
    if !disk.in_range(key) {
        return Err(Fault::BadKey);
    }
    let at = key as usize;
    if claim[at] != 0 {
        return Err(Fault::ClaimedTwice);
    }
    claim[at] = 1;
    Ok(())
}

// Meets a block: claims its key, and then makes its tests. What is wrong is said of a place, the block's key.
// Callers give the tests as a `move` closure: with references to what it captures, the walk takes more stack for each
// directory.
pub(crate) fn meet<F: FnOnce() -> Result<(), Fault>>(
    disk: Disk,
    claim: &mut [u8],
    key: u32,
    place: usize,
    tests: F,
) -> Result<(), Refusal>
    requires bytes { length claim.old ≡ claim_bytes disk }
    requires may_test { (first_key ≤ key) → (key < disk.blocks) → F.IsAlwaysCallable tests }
    ensures { Meets disk claim.old key place (λ t. F.post tests t) result claim.new }
{
    claim_key(disk, claim, key)
        .and_then(|()| tests())
        .map_err(|fault| fault.at(place))
}
