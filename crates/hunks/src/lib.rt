// Load and move with the records as structs: a lent slice of hunks, filled from the numbers that the loader hands back.
#![tactic(auto)]

ghost use Rattle.std.specs.Prelude.{◌≡◌, ◌+◌, ◌*◌, ◌≤◌, length};
ghost use Rattle.loader.specs.Table.{record_length};
ghost use Rattle.hunks.specs.Records.{record_at, filled};
ghost use Rattle.hunks.specs.Calls.{Loads, Moves};
ghost use Rattle.hunks.specs.Parts.{count_of, Fits};

use answers::Refusal;
use loader::calls::{Outcome, load_core, move_core};
use loader::table::RECORD_LENGTH;
use program::check::Extent;

// The record of a hunk: the kind of its body, its first byte in lent memory, its size in words, its base, and the kind
// of memory that it asks for.
#[repr(C)]
#[derive(Drop)]
pub struct Hunk {
    pub kind: u32,
    pub place: u32,
    pub size: u32,
    pub base: u32,
    pub memory: u32,
}

// Record i of numbers.
fn record_at(numbers: &[u32], i: usize) -> Hunk
    requires { record_length * i + record_length ≤ length numbers.now }
    ensures { result ≡ record_at numbers.now i }
{
    let k = RECORD_LENGTH * i;
    Hunk {
        kind: numbers[k],
        place: numbers[k + 1],
        size: numbers[k + 2],
        base: numbers[k + 3],
        memory: numbers[k + 4],
    }
}

// Fills the first records of a lent table, as many as an accepted program has hunks; the others stay.
fn fill(o: &Outcome, table: &mut [Hunk])
    requires { Fits o.now (length table.old) }
    ensures { table.new ≡ filled o.now.records (count_of o.now.answer) table.old }
{
    if let Ok(extent) = o.answer {
        for i in 0..extent.hunks as usize {
            table[i] = record_at(&o.records, i);
        }
    }
}

// Loads a program at the given bases.
pub fn load(
    file: &[u8],
    bases: &[u32],
    memory: &mut [u8],
    table: &mut [Hunk],
    work: &mut [u8],
) -> Result<Extent, Refusal>
    ensures { Loads file.now bases.now memory.old table.old
        work.old result memory.new table.new work.new }
{
    let o = load_core(file, bases, memory, table.len(), work);
    fill(&o, table);
    o.answer
}

// Moves a loaded program from the old bases to the new ones.
pub fn move_program(
    file: &[u8],
    old: &[u32],
    new: &[u32],
    memory: &mut [u8],
    table: &mut [Hunk],
    work: &mut [u8],
) -> Result<Extent, Refusal>
    ensures { Moves file.now old.now new.now memory.old
        table.old work.old result memory.new table.new work.new }
{
    let o = move_core(file, old, new, memory, table.len(), work);
    fill(&o, table);
    o.answer
}
