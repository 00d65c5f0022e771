// Loads a program file from standard input, hunk i at hex 3000+4000i, and writes the loaded words, one a line, or why
// there are none.
#![tactic(auto)]

ghost use Rattle.std.specs.Prelude.{◌≤◌};

use answers::{Fault, Refusal};
use console::rooms::room;
use console::{hex, streams};
use loader::table::TABLE_ROOM;
use std::array;
use std::io::Print;

// The longest file that is taken.
const LONGEST: usize = 16384;

// One byte more, to see that a file is longer.
const FILE_ROOM: usize = LONGEST + 1;

// How long the memory and the work area are.
const AREA: usize = 16384;

// The hunks that there are bases and records for.
const HUNKS: usize = 64;

// Where the first hunk goes, and how far each is from the one before.
const FIRST: u32 = 0x3000;

const STEP: u32 = 0x4000;

// How many hunks the header says, as far as there are bases.
fn hunks(file: &[u8]) -> usize
    ensures { result ≤ 64 }
{
    let total = file.get(8..).and_then(|rest| rest.first_chunk());
    total.map_or(0, |total| HUNKS.min(u32::from_be_bytes(*total) as usize))
}

// Writes why there are no words.
fn refused(rt: &impl Print, fault: Refusal) {
    let Refusal { number, place } = fault;
    let _ = println!(rt; "refused {number} at {place}");
}

// Loads the file, and writes what comes of it.
fn run(rt: &impl Print, file: &[u8]) {
    let bases: [u32; HUNKS] = array::from_fn(|i| FIRST + STEP * i as u32);
    let mut memory: [u8; AREA] = room(0);
    let mut work: [u8; AREA] = room(0);
    let mut table: [u32; TABLE_ROOM] = room(0);
    let bases = &bases[..hunks(file)];
    match loader::calls::load(file, bases, &mut memory, &mut table, &mut work) {
        Ok(extent) => hex::words(rt, &memory[..extent.bytes]),
        Err(fault) => refused(rt, fault),
    }
}

fn main(rt: HostRuntime) {
    let mut file: [u8; FILE_ROOM] = room(0);
    let length = streams::read_full(&mut rt.stdin(), &mut file);
    if length > LONGEST {
        return refused(&rt, Fault::ShortRoom.at(0));
    }
    run(&rt, &file[..length]);
}
