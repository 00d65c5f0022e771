// Two targets of one hunk less than 4 bytes apart, found by marks in the work area.
ghost use Rattle.std.specs.Prelude.{◌≡◌, ℕ, ◌+◌, ◌%◌, ◌≤◌, length, replicate, slice_index};
ghost use Rattle.words.specs.Word.{set_word};
ghost use Rattle.program.specs.Cursors.{HeaderFits};
ghost use Rattle.loader.specs.Memory.{loaded_of};
ghost use Rattle.loader.specs.Near.{clash_of};

use crate::steps::{Step, steps};
use answers::{Fault, Refusal};
use program::act::Act;

// Four bytes of 1.
const MARK: u32 = 0x01010101;

// Marks the four bytes at p.
fn mark(work: &mut [u8], p: usize)
    requires { p + 4 ≤ length work.old }
    ensures { work.new ≡ set_word work.old p 0x01010101 }
{
    words::put_word(work, p, MARK);
}

// The first target too near an earlier one; the work area is all 0 at first.
fn mark_all(file: &[u8], work: &mut [u8]) -> Result<(), Refusal>
    requires { (HeaderFits file.now) × (length file.now % 4 ≡ 0) × (loaded_of file.now ≤ length work.old)
        × ((k : ℕ) → slice_index work.old k ≡ 0) }
    ensures { result ≡ clash_of file.now }
{
    for step in steps(file) {
        if let Step::Act(a) = step {
            if let Act::Add { place, at, .. } = a {
                if words::word(work, place) != 0 {
                    return Err(Fault::NearTargets.at(at));
                }
                mark(work, place);
            }
        }
    }
    Ok(())
}

// The same in a work area that may be longer, all 0 at first and all 0 again: only the n bytes that a mark can stand
// in are cleared.
pub(crate) fn near_fault(file: &[u8], n: usize, work: &mut [u8]) -> Result<(), Refusal>
    requires { (HeaderFits file.now) × (length file.now % 4 ≡ 0) × (n ≡ loaded_of file.now)
        × (n ≤ length work.old) × (work.old ≡ replicate (length work.old) 0) }
    ensures { (result ≡ clash_of file.now)
        × (work.new ≡ replicate (length work.old) 0) }
{
    let r = mark_all(file, &mut work[..n]);
    work[..n].fill(0);
    r
}
