// The records of the hunks: kind, place, size, base and kind of memory of each.
ghost use Rattle.std.specs.Prelude.{◌≡◌, ◌+◌, ◌*◌, ◌%◌, ◌≤◌, length};
ghost use Rattle.program.specs.Header.{total_of};
ghost use Rattle.program.specs.Acts.{acts_of};
ghost use Rattle.program.specs.Cursors.{HeaderFits};
ghost use Rattle.loader.specs.Parts.{ActFits};
ghost use Rattle.loader.specs.Table.{record_length, with_numbers, record_one, with_records};

use crate::steps::{Step, steps};
use program::act::Act;
use program::header::{memory, size};

// How many numbers a record has.
pub const RECORD_LENGTH: usize = 5;

// The numbers of 64 records: a file has no more hunks.
pub const TABLE_ROOM: usize = 64 * RECORD_LENGTH;

// Puts numbers in place of those of the table from `at` on.
pub(crate) fn put_numbers(numbers: &[u32], table: &mut [u32], at: usize)
    requires { at + length numbers.now ≤ length table.old }
    ensures { table.new ≡ with_numbers table.old at numbers.now }
{
    words::copy(numbers, &mut table[at..at + numbers.len()]);
}

// Writes the record of a hunk that begins.
fn write_act(file: &[u8], bases: &[u32], table: &mut [u32], a: Act)
    requires { (HeaderFits file.now) × (ActFits 4294967296 (total_of file.now) a)
        × (total_of file.now ≤ length bases.now) × (record_length * total_of file.now ≤ length table.old) }
    ensures { table.new ≡ record_one file.now bases.now table.old a }
{
    if let Act::Body { hunk, place, kind } = a {
        let i = hunk as usize;
        let record = [
            kind,
            place as u32,
            size(file, hunk),
            bases[i],
            memory(file, hunk),
        ];
        put_numbers(&record, table, RECORD_LENGTH * i);
    }
}

// Writes the record of each hunk.
pub(crate) fn write_all(file: &[u8], bases: &[u32], table: &mut [u32])
    requires { (HeaderFits file.now) × (length file.now % 4 ≡ 0) × (total_of file.now ≤ length bases.now)
        × (record_length * total_of file.now ≤ length table.old) }
    ensures { table.new ≡ with_records file.now bases.now table.old
        (acts_of file.now) }
{
    for step in steps(file) {
        if let Step::Act(a) = step {
            write_act(file, bases, table, a);
        }
    }
}
