// The calls of `jufferdeeg` as a static library: what a C program links, with the same names and clauses.
#![tactic(auto)]

ghost use Rattle.std.specs.Prelude.{◌≡◌, length};
ghost use Rattle.jufferdeeg.specs.Programs.{check_numbers, LoadsNumbers, MovesNumbers};
ghost use Rattle.jufferdeeg.specs.Reasons.{Reasons};
ghost use Rattle.jufferdeeg.specs.Volumes.{find_in_image, AuditsImage, ReadsImage};

use hunks::Hunk;
use jufferdeeg::programs::{self, ProgramNumbers};
use jufferdeeg::reasons;
use jufferdeeg::volumes::{self, AuditNumbers, FindNumbers, ReadNumbers};

#[unsafe(no_mangle)]
pub extern "C" fn jufferdeeg_audit(named: u32, image: &[u8], claim: &mut [u8]) -> AuditNumbers
    ensures { AuditsImage named image.now (length claim.old) result claim.new }
{
    volumes::jufferdeeg_audit(named, image, claim)
}

#[unsafe(no_mangle)]
pub extern "C" fn jufferdeeg_find(named: u32, image: &[u8], path: &[u8]) -> FindNumbers
    ensures { result ≡ find_in_image named image.now path.now }
{
    volumes::jufferdeeg_find(named, image, path)
}

#[unsafe(no_mangle)]
pub extern "C" fn jufferdeeg_read(
    named: u32,
    image: &[u8],
    path: &[u8],
    offset: usize,
    output: &mut [u8],
) -> ReadNumbers
    ensures { ReadsImage named image.now path.now offset output.old result
        output.new }
{
    volumes::jufferdeeg_read(named, image, path, offset, output)
}

#[unsafe(no_mangle)]
pub extern "C" fn jufferdeeg_check(file: &[u8]) -> ProgramNumbers
    ensures { result ≡ check_numbers file.now }
{
    programs::jufferdeeg_check(file)
}

#[unsafe(no_mangle)]
pub extern "C" fn jufferdeeg_load(
    file: &[u8],
    bases: &[u32],
    memory: &mut [u8],
    table: &mut [Hunk],
    work: &mut [u8],
) -> ProgramNumbers
    ensures { LoadsNumbers file.now bases.now memory.old table.old
        work.old result memory.new table.new work.new }
{
    programs::jufferdeeg_load(file, bases, memory, table, work)
}

#[unsafe(no_mangle)]
pub extern "C" fn jufferdeeg_move(
    file: &[u8],
    old: &[u32],
    new: &[u32],
    memory: &mut [u8],
    table: &mut [Hunk],
    work: &mut [u8],
) -> ProgramNumbers
    ensures { MovesNumbers file.now old.now new.now memory.old
        table.old work.old result memory.new table.new work.new }
{
    programs::jufferdeeg_move(file, old, new, memory, table, work)
}

#[unsafe(no_mangle)]
pub extern "C" fn jufferdeeg_reason(number: u32, output: &mut [u8]) -> usize
    ensures { Reasons number output.old result output.new }
{
    reasons::jufferdeeg_reason(number, output)
}
