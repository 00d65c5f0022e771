// A program file's header: five words, and a size word for each hunk.
ghost use Rattle.std.specs.Prelude.{◌≡◌, ◌+◌, ◌*◌, ◌≤◌, length};
ghost use Rattle.answers.specs.Refusals.{told};
ghost use Rattle.program.specs.Spaces.{space_in, space_fault};
ghost use Rattle.program.specs.Header.{total_of, space_of, size_of, memory_of, head_fault, heads};

use answers::{Fault, Refusal};

const HEADER: u32 = 0x3F3;

// The words before the size words.
pub const WORDS: usize = 5;

const MOST_HUNKS: u32 = 64;

const LARGEST: u32 = 65536;

// In a size word, the size is below this bit; this one asks for chip memory, and the next for fast memory.
const CHIP_BIT: u32 = 0x40000000;

// Kinds of memory; 0 is any. Numbers, since the hunk table hands them to C.
pub const CHIP: u32 = 1;

pub const FAST: u32 = 2;

// The number of hunks.
pub fn total(file: &[u8]) -> u32
    requires { 12 ≤ length file.now }
    ensures { result ≡ total_of file.now }
{
    words::word(file, 8)
}

// The size word of a hunk.
#[tactic(auto, unfolding(crate::specs::Header::space_of))]
fn size_word(file: &[u8], i: u32) -> u32
    requires { 24 + 4 * i ≤ length file.now }
    ensures { space_in result ≡ space_of file.now i }
{
    words::word(file, 4 * WORDS + 4 * i as usize)
}

// The size of a hunk in words.
pub fn size(file: &[u8], i: u32) -> u32
    requires { 24 + 4 * i ≤ length file.now }
    ensures { result ≡ size_of file.now i }
{
    size_word(file, i) % CHIP_BIT
}

// The kind of memory that a hunk asks for.
pub fn memory(file: &[u8], i: u32) -> u32
    requires { 24 + 4 * i ≤ length file.now }
    ensures { result ≡ memory_of file.now i }
{
    size_word(file, i) / CHIP_BIT
}

// The test of a size word.
fn space_fault(w: u32) -> Result<(), Fault>
    ensures { told result ≡ space_fault (space_in w) }
{
    if FAST < w / CHIP_BIT {
        return Err(Fault::BothMemories);
    }
    if w % CHIP_BIT <= LARGEST {
        Ok(())
    } else {
        Err(Fault::HunkSize)
    }
}

// The test of the header's word i.
fn head_fault(file: &[u8], i: usize, w: u32) -> Result<(), Fault>
    requires { 4 * i + 4 ≤ length file.now }
    ensures { told result ≡ head_fault (total_of file.now) i w }
{
    match i {
        0 if w != HEADER => Err(Fault::HeaderWord),
        1 if w != 0 => Err(Fault::Library),
        2 if w == 0 || MOST_HUNKS < w => Err(Fault::HeaderWord),
        3 if w != 0 => Err(Fault::HeaderWord),
        4 if w as u64 + 1 != total(file) as u64 => Err(Fault::HeaderWord),
        0..=4 => Ok(()),
        _ => space_fault(w),
    }
}

// n words of the header from word `from` on.
pub(crate) fn head_words(file: &[u8], from: usize, n: usize) -> Result<(), Refusal>
    requires { (from ≤ 5) × (n ≤ 4294967296) }
    ensures { result ≡ heads file.now from n }
{
    for i in from..from + n {
        if file.len() < 4 * i + 4 {
            return Err(Fault::EarlyEnd.at(file.len()));
        }
        head_fault(file, i, words::word(file, 4 * i)).map_err(|fault| fault.at(4 * i))?;
    }
    Ok(())
}
