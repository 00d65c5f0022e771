// Load and move on plain slices, with no demands on what is lent.
ghost use Rattle.std.specs.Prelude.{◌≡◌, ℕ, ◌+◌, ◌<◌, ◌≤◌, length, replicate};
ghost use Rattle.std.specs.Option.{option_copied};
ghost use Rattle.program.specs.Acts.{acts_of};
ghost use Rattle.program.specs.Cursors.{HeaderFits};
ghost use Rattle.loader.specs.Memory.{loaded_of, moved, amount_of};
ghost use Rattle.loader.specs.Table.{table_room, with_records};
ghost use Rattle.loader.specs.Calls.{room_fault, Loads, Moves};
ghost use Rattle.loader.specs.Parts.{Roomy, Cleanly, Writes, LoadsCore, MovesCore, Places, Fills, filled};
ghost use Rattle.loader.specs.Parts.{lists_fault, answer_of, placed_of, SameLength};

use crate::bases::bases_fault;
use crate::marks::near_fault;
use crate::memory::{add_all, store_all};
use crate::table::{RECORD_LENGTH, TABLE_ROOM, put_numbers, write_all};
use answers::{Fault, Refusal};
use program::check::{Extent, check};
use program::header::total;

// An answer, and the records' numbers beside it.
#[derive(Clone, Copy)]
pub struct Outcome {
    pub answer: Result<Extent, Refusal>,
    pub records: [u32; TABLE_ROOM],
}

// The first bad entry of the lists of bases: of the old one, if there is one, and then of the new one.
fn lists_fault(file: &[u8], old: Option<&[u32]>, to: &[u32]) -> Result<(), Refusal>
    requires { HeaderFits file.now }
    ensures { result ≡ lists_fault file.now (option_copied old.entry) to.now }
{
    let Some(old) = old else {
        return bases_fault(file, to, 0);
    };
    bases_fault(file, old, 0)?;
    bases_fault(file, to, total(file) as usize)
}

// Room for t hunks of n bytes.
fn room_fault(t: u32, n: usize, memory: usize, records: usize, work: usize) -> Result<(), Refusal>
    ensures { result ≡ room_fault t n memory records work }
{
    if memory < n || records < t as usize || work < n {
        return Err(Fault::ShortRoom.at(0));
    }
    Ok(())
}

// The answer of a call that brings a program to the bases `to`: from the bases `old` if it is loaded already. The work
// area may hold anything; it is wiped before the tests, and comes back all 0.
fn verdict(
    file: &[u8],
    old: Option<&[u32]>,
    to: &[u32],
    memory: usize,
    records: usize,
    work: &mut [u8],
) -> Result<Extent, Refusal>
    ensures { Cleanly (answer_of file.now (option_copied old.entry) to.now memory records (length work.old))
        (length work.old) result work.new }
{
    work.fill(0);
    let extent = check(file)?;
    lists_fault(file, old, to)?;
    room_fault(extent.hunks, extent.bytes, memory, records, work.len())?;
    near_fault(file, extent.bytes, work)?;
    Ok(extent)
}

// New minus old of each entry, modulo 2^32.
fn differences(old: &[u32], new: &[u32], amounts: &mut [u32])
    requires { (length new.now ≤ length old.now) × (length new.now ≤ length amounts.old) }
    ensures { (k : ℕ) → k < length new.now
        → amount_of amounts.new k ≡ moved old.now new.now k }
{
    for i in 0..new.len() {
        amounts[i] = new[i].wrapping_sub(old[i]);
    }
}

// Brings an accepted program, n bytes long, to its bases, and writes its records' numbers.
fn place(
    file: &[u8],
    old: Option<&[u32]>,
    to: &[u32],
    n: usize,
    memory: &mut [u8],
    numbers: &mut [u32],
)
    requires { (n ≡ loaded_of file.now) × (Roomy file.now (length to.now) (length memory.old))
        × (SameLength (option_copied old) to.now) × (length numbers.old ≡ table_room) }
    ensures { Writes (placed_of file.now (option_copied old.entry) to.now memory.old)
        (with_records file.now to.now numbers.old (acts_of file.now))
        memory.new numbers.new }
{
    match old {
        None => {
            memory[..n].fill(0);
            store_all(file, memory);
            add_all(file, memory, to);
        }
        Some(old) => {
            let mut amounts = [0u32; 64];
            differences(old, to, &mut amounts);
            add_all(file, memory, &amounts);
        }
    }
    write_all(file, to, numbers);
}

// The core of a load and of a move.
fn call(
    file: &[u8],
    old: Option<&[u32]>,
    to: &[u32],
    memory: &mut [u8],
    records: usize,
    work: &mut [u8],
) -> Outcome
    ensures { Places file.now (option_copied old.entry) to.now memory.old work.old
        records result memory.new work.new }
{
    let mut numbers = [0u32; TABLE_ROOM];
    let answer = verdict(file, old, to, memory.len(), records, work);
    if let Ok(extent) = answer {
        place(file, old, to, extent.bytes, memory, &mut numbers);
    }
    Outcome {
        answer,
        records: numbers,
    }
}

// Loads a program, and hands the records' numbers back. A load and a move are public calls of their own, since each has
// a promise of its own.
pub fn load_core(
    file: &[u8],
    bases: &[u32],
    memory: &mut [u8],
    records: usize,
    work: &mut [u8],
) -> Outcome
    ensures { LoadsCore file.now bases.now memory.old work.old
        records result memory.new work.new }
{
    call(file, None, bases, memory, records, work)
}

// Moves a loaded program, and hands the records' numbers back.
pub fn move_core(
    file: &[u8],
    old: &[u32],
    new: &[u32],
    memory: &mut [u8],
    records: usize,
    work: &mut [u8],
) -> Outcome
    ensures { MovesCore file.now old.now new.now memory.old
        work.old records result memory.new work.new }
{
    call(file, Some(old), new, memory, records, work)
}

// Writes the records of an accepted program to a table of numbers.
fn fill(o: &Outcome, table: &mut [u32])
    requires { Fills o.now (length table.old) }
    ensures { table.new ≡ filled o.now table.old }
{
    if let Ok(extent) = o.answer {
        let n = RECORD_LENGTH * extent.hunks as usize;
        put_numbers(&o.records[..n], table, 0);
    }
}

// Loads a program at the given bases.
pub fn load(
    file: &[u8],
    bases: &[u32],
    memory: &mut [u8],
    table: &mut [u32],
    work: &mut [u8],
) -> Result<Extent, Refusal>
    ensures { Loads file.now bases.now memory.old table.old
        work.old result memory.new table.new work.new }
{
    let o = load_core(file, bases, memory, table.len() / RECORD_LENGTH, work);
    fill(&o, table);
    o.answer
}

// Moves a loaded program from the old bases to the new ones.
pub fn move_program(
    file: &[u8],
    old: &[u32],
    new: &[u32],
    memory: &mut [u8],
    table: &mut [u32],
    work: &mut [u8],
) -> Result<Extent, Refusal>
    ensures { Moves file.now old.now new.now memory.old
        table.old work.old result memory.new table.new work.new }
{
    let o = move_core(file, old, new, memory, table.len() / RECORD_LENGTH, work);
    fill(&o, table);
    o.answer
}
