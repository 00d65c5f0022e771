// What a verb is asked: the option -b, and the arguments after it.
ghost use Rattle.std.specs.Prelude.{◌≡◌};

use crate::arguments::LONGEST;
use crate::numbers::decimal;
use crate::saying::wrong;
use crate::status::Failure;
use console::rooms::room;
use console::streams::argument;
use std::ops::Range;
use volume::disk::Disk;

// The number of blocks that calls name, and the places of the arguments: the first, and one past the last.
#[derive(Clone, Copy)]
pub struct Asked {
    pub named: u32,
    pub first: usize,
    pub end: usize,
}

impl Asked {
    // The places of the arguments.
    pub(crate) fn places(self) -> Range<usize>
        ensures { (result.start ≡ self.first) × (result.end ≡ self.end) }
    {
        self.first..self.end
    }
}

// Without the option.
pub fn plainly(count: usize) -> Asked {
    Asked {
        named: Disk::DOUBLE_DENSITY,
        first: 2,
        end: count,
    }
}

// The number of blocks that a text names.
fn named_by(text: &[u8]) -> Option<u32> {
    match text {
        b"any" => Some(Disk::ANY_SIZE),
        _ => decimal(text),
    }
}

// Whether argument 2 is the option.
fn has_option(rt: &HostRuntime) -> bool {
    let mut text: [u8; LONGEST] = room(0);
    argument(rt, 2, &mut text) == b"-b".as_slice()
}

// What a verb is asked with so many arguments, if it has an image. The value of the option is argument 3.
pub fn of_image(rt: &HostRuntime, count: usize) -> Result<Asked, Failure> {
    if !has_option(rt) {
        return Ok(plainly(count));
    }
    if count < 4 {
        return Err(wrong(
            rt,
            b"-b",
            " needs a number of blocks: name 1760, 3520 or any",
        ));
    }
    let mut text: [u8; LONGEST] = room(0);
    let text = argument(rt, 3, &mut text);
    let named = named_by(text).ok_or_else(|| {
        wrong(rt, text, " is no number of blocks: name 1760, 3520 or any")
    })?;
    Ok(Asked {
        named,
        first: 4,
        end: count,
    })
}
