// Answers requests from standard input until it ends, a line for each. A request is eight bytes, its number and its
// body's length, both big-endian, and then the body.
#![tactic(auto)]

mod checksum;
mod desk;
mod frame;
mod line;
mod programs;
mod volumes;

use console::rooms::{IMAGE, room};
use desk::{Desk, Held};
use frame::{Body, Wrong};
use loader::table::RECORD_LENGTH;
use volume::disk::Disk;

// The longest program file that is held, and the longest output of a read.
const FILE: usize = 1048576;

// The most memory, and the largest work area, that a program is lent.
const AREA: usize = 524288;

// The numbers of the records that a program is lent at most: 80 records.
const TABLE: usize = 80 * RECORD_LENGTH;

// What is asked.
#[derive(Clone, Copy)]
enum Request {
    Image,
    Patch,
    Audit,
    Find,
    Read,
    File,
    Load,
    Move,
    Disk,
}

impl TryFrom<u32> for Request {
    type Error = Wrong;

    fn try_from(number: u32) -> Result<Request, Wrong> {
        Ok(match number {
            1 => Request::Image,
            2 => Request::Patch,
            3 => Request::Audit,
            4 => Request::Find,
            5 => Request::Read,
            6 => Request::File,
            7 => Request::Load,
            8 => Request::Move,
            9 => Request::Disk,
            _ => return Err(Wrong::Bad),
        })
    }
}

// Reads the body of a request and answers it.
fn answer(rt: &HostRuntime, desk: &mut Desk, number: u32, body: &mut Body) -> Result<(), Wrong> {
    match Request::try_from(number)? {
        Request::Image => desk.image.hold(rt, "image", body),
        Request::Patch => desk.patch(rt, body),
        Request::Audit => desk.audit(rt, body),
        Request::Find => desk.find(rt, body),
        Request::Read => desk.read(rt, body),
        Request::File => desk.file.hold(rt, "file", body),
        Request::Load => desk.load(rt, body),
        Request::Move => desk.move_program(rt, body),
        Request::Disk => desk.name(rt, body),
    }
}

// Takes one request, and answers whether there was one. What a bad one leaves of its body is skipped.
fn take(rt: &HostRuntime, desk: &mut Desk) -> Result<bool, Wrong> {
    let Some((number, mut body)) = frame::next(rt)? else {
        return Ok(false);
    };
    let answered = answer(rt, desk, number, &mut body);
    if answered == Err(Wrong::Bad) {
        body.skip()?;
    }
    answered.map(|()| true)
}

// Takes one request, and answers whether there may be another.
fn one(rt: &HostRuntime, desk: &mut Desk) -> bool {
    take(rt, desk).unwrap_or_else(|wrong| {
        let _ = println!(rt; "bad request");
        wrong == Wrong::Bad
    })
}

// Before the first request nothing is held, and calls name double density.
fn main(rt: HostRuntime) {
    let mut image: [u8; IMAGE] = room(0);
    let mut output: [u8; FILE] = room(0);
    let mut file: [u8; FILE] = room(0);
    let mut memory: [u8; AREA] = room(0);
    let mut work: [u8; AREA] = room(0);
    let mut table: [u32; TABLE] = room(0);
    let mut desk = Desk {
        named: Disk::DOUBLE_DENSITY,
        image: Held {
            room: &mut image,
            length: 0,
        },
        file: Held {
            room: &mut file,
            length: 0,
        },
        output: &mut output,
        memory: &mut memory,
        table: &mut table,
        work: &mut work,
        lent_bytes: 0,
        lent_records: 0,
    };
    for _ in 0..u64::MAX {
        if !one(&rt, &mut desk) {
            return;
        }
    }
}
