// The frame of a request, and its body.
use console::rooms;
use console::streams::read_full;

// How many bytes are read at once to be forgotten.
const PIECE: usize = 4096;

// The most numbers of a body: three lengths, a count, and two lists of bases; and its bytes.
pub const NUMBERS: usize = 516;

const BYTES: usize = 2064;

// Why a request is answered as a bad one.
#[derive(Clone, Copy, Debug, PartialEq, Eq)]
pub enum Wrong {
    // It is none, or it asks for too much.
    Bad,

    // The input ended inside it.
    Broken,
}

// As much of a request's body as is still to be read.
#[derive(Drop)]
pub struct Body<'a> {
    rt: &'a HostRuntime,
    left: usize,
}

// The number and the body of the next request, if there is one.
pub fn next(rt: &HostRuntime) -> Result<Option<(u32, Body<'_>)>, Wrong> {
    let mut head = [[0u8; 4]; 2];
    match read_full(&mut rt.stdin(), head.as_flattened_mut()) {
        0 => Ok(None),
        8 => {
            let [number, length] = head.map(u32::from_be_bytes);
            let left = length as usize;
            Ok(Some((number, Body { rt, left })))
        }
        _ => Err(Wrong::Broken),
    }
}

impl Body<'_> {
    // Fills `part` from the body.
    fn fill(&mut self, part: &mut [u8]) -> Result<(), Wrong> {
        let wanted = part.len();
        let left = self.left.checked_sub(wanted).ok_or(Wrong::Bad)?;
        if read_full(&mut self.rt.stdin(), part) < wanted {
            return Err(Wrong::Broken);
        }
        self.left = left;
        Ok(())
    }

    // A number.
    pub fn number(&mut self) -> Result<u32, Wrong> {
        let mut four = [0u8; 4];
        self.fill(&mut four)?;
        Ok(u32::from_be_bytes(four))
    }

    // All that is left, at the start of this room.
    pub fn rest<'a>(&mut self, room: &'a mut [u8]) -> Result<&'a [u8], Wrong> {
        if self.left > room.len() {
            return Err(Wrong::Bad);
        }
        let part = &mut room[..self.left];
        self.fill(part)?;
        Ok(part)
    }

    // All that is left, as numbers at the start of this room.
    pub fn numbers<'a>(&mut self, room: &'a mut [u32; NUMBERS]) -> Result<&'a [u32], Wrong> {
        let mut bytes: [u8; BYTES] = rooms::room(0);
        let (words, odd) = self.rest(&mut bytes)?.as_chunks::<4>();
        if !odd.is_empty() {
            return Err(Wrong::Bad);
        }
        for (number, word) in room.iter_mut().zip(words) {
            *number = u32::from_be_bytes(*word);
        }
        room.get(..words.len()).ok_or(Wrong::Bad)
    }

    // Nothing may be left.
    pub fn end(&self) -> Result<(), Wrong> {
        if self.left > 0 {
            return Err(Wrong::Bad);
        }
        Ok(())
    }

    // Reads what is left to forget it, in pieces.
    pub fn skip(&mut self) -> Result<(), Wrong> {
        let mut piece: [u8; PIECE] = rooms::room(0);
        for _ in 0..self.left / PIECE {
            self.fill(&mut piece)?;
        }
        self.rest(&mut piece)?;
        Ok(())
    }
}
