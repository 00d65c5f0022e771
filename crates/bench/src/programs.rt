// Program files: load and move.
use crate::arguments::LONGEST;
use crate::asked::Asked;
use crate::files::Kind;
use crate::rooms::{Board, MEMORY};
use crate::saying::wrong;
use crate::status::{Failure, Outcome};
use crate::{bases, files, listing, saying};
use answers::{Fault, Refusal};
use console::rooms::room;
use console::streams::argument;
use program::check::check;

// Says why a load or a move refused; where the room is too small, how much is needed too.
pub fn refused(rt: &HostRuntime, who: &[u8], file: &[u8], fault: Refusal) -> Failure {
    if fault.number != u32::from(Fault::ShortRoom) {
        return saying::refused(rt, who, fault, "");
    }
    let needed = check(file).map_or(0, |extent| extent.bytes);
    let note = format_args!(": {needed} bytes needed, {MEMORY} lent");
    saying::refused(rt, who, fault, note)
}

// Loads the file that argument i names at the old bases, moves it to the new ones if there are any, and lists it.
fn list_file(
    rt: &HostRuntime,
    i: usize,
    old: &[u32],
    new: Option<&[u32]>,
    file: &mut [u8],
    board: &mut Board,
) -> Outcome {
    let mut name: [u8; LONGEST] = room(0);
    let name = argument(rt, i, &mut name);
    let file = files::read(rt, name, Kind::Program, file)?;
    let said = |fault| refused(rt, name, file, fault);
    let loaded = board.load(file, old).map_err(said)?;
    match new {
        None => listing::program(rt, loaded),
        Some(new) => listing::program(rt, board.move_program(file, old, new).map_err(said)?),
    }
    Ok(())
}

pub fn load(rt: &HostRuntime, asked: Asked, file: &mut [u8], board: &mut Board) -> Outcome {
    let mut left = asked.places();
    let (Some(name), false) = (left.next(), left.is_empty()) else {
        return Err(wrong(rt, b"load", " needs a FILE and a BASE for each hunk"));
    };
    let mut list: [u32; bases::MOST] = room(0);
    let bases = bases::list(rt, left, &mut list)?;
    list_file(rt, name, bases, None, file, board)
}

// Whether argument i is the word between the lists.
fn is_to(rt: &HostRuntime, i: usize) -> bool {
    let mut word: [u8; LONGEST] = room(0);
    argument(rt, i, &mut word) == b"to".as_slice()
}

// The word between the lists is the first that has one base or more before it.
pub fn move_program(rt: &HostRuntime, asked: Asked, file: &mut [u8], board: &mut Board) -> Outcome {
    let mut left = asked.places();
    let (Some(name), Some(first), Some(to), false) = (
        left.next(),
        left.next(),
        left.find(|i| is_to(rt, *i)),
        left.is_empty(),
    ) else {
        return Err(wrong(
            rt,
            b"move",
            " needs a FILE, old bases, the word to, and new bases",
        ));
    };
    let mut list: [u32; bases::MOST] = room(0);
    let old = bases::list(rt, first..to, &mut list)?;
    let mut list: [u32; bases::MOST] = room(0);
    let new = bases::list(rt, left, &mut list)?;
    list_file(rt, name, old, Some(new), file, board)
}
