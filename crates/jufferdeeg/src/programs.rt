// Check, load and move, for C and Rust. The answers are structs of numbers, since C has no Result.
ghost use Rattle.std.specs.Prelude.{◌≡◌};
ghost use Rattle.jufferdeeg.specs.Programs.{program_numbers, check_numbers, LoadsNumbers, MovesNumbers};

use answers::Refusal;
use hunks::Hunk;
use program::check::Extent;

// The answer of a check, a load or a move: how many hunks, and the loaded bytes.
#[repr(C)]
#[derive(Clone, Copy, Debug, PartialEq, Eq)]
pub struct ProgramNumbers {
    pub number: u32,
    pub place: usize,
    pub hunks: u32,
    pub bytes: usize,
}

impl From<Result<Extent, Refusal>> for ProgramNumbers {
    ghost from_gives = { λ a n. n ≡ program_numbers a };

    fn from(answer: Result<Extent, Refusal>) -> ProgramNumbers {
        match answer {
            Ok(extent) => ProgramNumbers {
                number: 0,
                place: 0,
                hunks: extent.hunks,
                bytes: extent.bytes,
            },
            Err(refusal) => ProgramNumbers {
                number: refusal.number,
                place: refusal.place,
                hunks: 0,
                bytes: 0,
            },
        }
    }
}

// Checks a program file: the hunks and the bytes of memory that a load of it takes.
pub fn jufferdeeg_check(file: &[u8]) -> ProgramNumbers
    ensures { result ≡ check_numbers file.now }
{
    ProgramNumbers::from(program::check::check(file))
}

// Loads a program at the given bases.
pub fn jufferdeeg_load(
    file: &[u8],
    bases: &[u32],
    memory: &mut [u8],
    table: &mut [Hunk],
    work: &mut [u8],
) -> ProgramNumbers
    ensures { LoadsNumbers file.now bases.now memory.old table.old
        work.old result memory.new table.new work.new }
{
    ProgramNumbers::from(hunks::load(file, bases, memory, table, work))
}

// Moves a loaded program from the old bases to the new ones.
pub fn jufferdeeg_move(
    file: &[u8],
    old: &[u32],
    new: &[u32],
    memory: &mut [u8],
    table: &mut [Hunk],
    work: &mut [u8],
) -> ProgramNumbers
    ensures { MovesNumbers file.now old.now new.now memory.old
        table.old work.old result memory.new table.new work.new }
{
    ProgramNumbers::from(hunks::move_program(file, old, new, memory, table, work))
}
