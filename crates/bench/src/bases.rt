// Bases: numbers in hex, among the arguments.
ghost use Rattle.std.specs.Prelude.{◌≤◌, length, IfOk};

use crate::arguments::LONGEST;
use crate::numbers::hex;
use crate::saying::wrong;
use crate::status::Failure;
use console::rooms::room;
use console::streams::argument;
use std::ops::Range;

// The most bases of a list.
pub const MOST: usize = 256;

// The base that argument i is, which may have 0x before its digits; a text that is none is said.
fn base(rt: &HostRuntime, i: usize) -> Result<u32, Failure> {
    let mut text: [u8; LONGEST] = room(0);
    let text = argument(rt, i, &mut text);
    let digits = text.strip_prefix(b"0x").unwrap_or(text);
    hex(digits).ok_or_else(|| wrong(rt, text, " is no base: a base is 1 to 8 hex digits"))
}

// The bases that the arguments at these places are, in this room. One that is no base, and too many, are said.
pub fn list<'a>(
    rt: &HostRuntime,
    places: Range<usize>,
    room: &'a mut [u32; MOST],
) -> Result<&'a [u32], Failure>
    ensures { IfOk result (λ bases. length bases.now ≤ length room.old) }
{
    let count = places.len();
    if count > MOST {
        return Err(wrong(rt, b"", "there are more than 256 bases"));
    }
    for (base, i) in room.iter_mut().zip(places) {
        *base = self::base(rt, i)?;
    }
    Ok(&room[..count])
}
