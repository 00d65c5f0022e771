// Files by name, read whole into the room that is lent.
ghost use Rattle.std.specs.Prelude.{◌≤◌, length, IfOk};

use crate::arguments::LONGEST;
use crate::saying::wrong;
use crate::status::Failure;
use console::rooms;
use console::streams::{argument, read_full};
use std::fmt::Display;
use std::fs::File;
use std::io::Read;
use std::{fmt, fs, str};

// What a file is to be.
#[derive(Clone, Copy)]
pub enum Kind {
    Image,
    Program,
}

impl Display for Kind {
    fn fmt<W: fmt::Write>(&self, f: &mut fmt::Formatter<W>) -> fmt::Result {
        match self {
            Kind::Image => write!(f, "an image"),
            Kind::Program => write!(f, "a program file"),
        }
    }
}

// Opens the named file. A name that is not UTF-8 is none to the library's files.
fn opened(rt: &HostRuntime, name: &[u8]) -> Option<File> {
    fs::open(rt, str::from_utf8(name).ok()?).ok()
}

// Reads the named file. Where it cannot be had whole, the reason is said.
pub fn read<'a>(
    rt: &HostRuntime,
    name: &[u8],
    kind: Kind,
    room: &'a mut [u8],
) -> Result<&'a [u8], Failure>
    ensures { IfOk result (λ bytes. length bytes.now ≤ length room.old) }
{
    let Some(mut file) = opened(rt, name) else {
        return Err(wrong(rt, name, ": cannot be opened"));
    };
    let length = read_full(&mut file, room);
    // one byte more, to see that it has ended
    match file.read(&mut [0]) {
        Ok(0) => Ok(&room[..length]),
        Ok(_) => Err(wrong(
            rt,
            name,
            format_args!(": longer than {} bytes, the room for {kind}", room.len()),
        )),
        Err(_) => Err(wrong(rt, name, ": cannot be read")),
    }
}

// Reads the file that argument i names.
pub fn read_argument<'a>(
    rt: &HostRuntime,
    i: usize,
    kind: Kind,
    room: &'a mut [u8],
) -> Result<&'a [u8], Failure>
    ensures { IfOk result (λ bytes. length bytes.now ≤ length room.old) }
{
    let mut name: [u8; LONGEST] = rooms::room(0);
    read(rt, argument(rt, i, &mut name), kind, room)
}
