// Lists of bases: where each hunk is to stand.
ghost use Rattle.std.specs.Prelude.{◌≡◌, ◌<◌, ◌≤◌, length};
ghost use Rattle.program.specs.Header.{total_of};
ghost use Rattle.program.specs.Cursors.{HeaderFits};
ghost use Rattle.loader.specs.Bases.{top_of, overlap, shares, entry_bad, bases_fault};

use answers::{Fault, Refusal};
use program::header::{size, total};

// One past the last address.
const TOP: u64 = 0x100000000;

// The first address after hunk i at its base.
fn top(file: &[u8], bases: &[u32], i: usize) -> u64
    requires { (HeaderFits file.now) × (i < total_of file.now) × (i < length bases.now) }
    ensures { result ≡ top_of file.now bases.now i }
{
    bases[i] as u64 + 4 * size(file, i as u32) as u64
}

// Whether hunks i and j share an address.
fn overlap(file: &[u8], bases: &[u32], i: usize, j: usize) -> bool
    requires { (HeaderFits file.now) × (i < total_of file.now) × (j < total_of file.now)
        × (length bases.now ≡ total_of file.now) }
    ensures { result ≡ overlap file.now bases.now i j }
{
    let low = bases[i].max(bases[j]) as u64;
    let high = top(file, bases, i).min(top(file, bases, j));
    low < high
}

// Whether hunk i shares an address with one before it.
fn shares_any(file: &[u8], bases: &[u32], i: usize) -> bool
    requires { (HeaderFits file.now) × (i < total_of file.now) × (length bases.now ≡ total_of file.now) }
    ensures { result ≡ shares file.now bases.now i i }
{
    for j in (0..i).rev() {
        if overlap(file, bases, i, j) {
            return true;
        }
    }
    false
}

// Whether entry i of a list of bases is bad.
#[tactic(auto, using(program::proofs::Choices::choices), unfolding(crate::specs::Bases::entry_bad))]
fn entry_bad(file: &[u8], bases: &[u32], i: usize) -> bool
    requires { (HeaderFits file.now) × (i < total_of file.now) × (length bases.now ≡ total_of file.now) }
    ensures { result ≡ entry_bad file.now bases.now i }
{
    if bases[i] % 4 != 0 {
        return true;
    }
    if TOP < top(file, bases, i) {
        return true;
    }
    shares_any(file, bases, i)
}

// The first bad entry of a list of bases; entries count from `from`.
pub(crate) fn bases_fault(file: &[u8], bases: &[u32], from: usize) -> Result<(), Refusal>
    requires { (HeaderFits file.now) × (from ≤ 64) }
    ensures { result ≡ bases_fault file.now bases.now from }
{
    let t = total(file) as usize;
    if bases.len() != t {
        return Err(Fault::BadBase.at(from));
    }
    for i in 0..t {
        if entry_bad(file, bases, i) {
            return Err(Fault::BadBase.at(from + i));
        }
    }
    Ok(())
}
