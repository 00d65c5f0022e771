// The check of a whole program file: its own faults, in file order.
ghost use Rattle.std.specs.Prelude.{◌≡◌, ◌%◌, length};
ghost use Rattle.program.specs.Check.{ended_of, walk_of, Checks};
ghost use Rattle.program.specs.Cursors.{HeaderFits};

use crate::header::{WORDS, head_words, total};
use crate::reader::{Cursor, Mode, begin, past, step};
use answers::{Fault, Refusal};

// How much a program takes: the number of its hunks, and the loaded bytes.
#[derive(Clone, Copy, Debug, PartialEq, Eq)]
pub struct Extent {
    pub hunks: u32,
    pub bytes: usize,
}

// The end of the words: the last hunk must have ended.
fn ended(file: &[u8], c: Cursor) -> Result<Extent, Refusal>
    ensures { result ≡ ended_of (length file.now) c c.mode }
{
    if let Mode::End = c.mode {
        return Ok(Extent {
            hunks: c.hunk,
            bytes: c.place,
        });
    }
    Err(Fault::EarlyEnd.at(file.len()))
}

// The hunks, to the end of the file. The passes of `loader` go over what words ask for, and end at a word that may not
// stand there; this loop names that word, so it is a loop of its own.
fn hunks(file: &[u8]) -> Result<Extent, Refusal>
    requires { (HeaderFits file.now) × (length file.now % 4 ≡ 0) }
    ensures { result ≡ walk_of file.now }
{
    let mut c = begin();
    let mut at = 4 * WORDS + 4 * total(file) as usize;
    while at < file.len() {
        let d = step(file, c, words::word(file, at)).map_err(|fault| fault.at(at))?;
        let s = past(file, d, at + 4);
        c = s.cursor;
        at = s.at;
    }
    ended(file, c)
}

// A file's own faults, or the number of its hunks and the bytes that they take.
pub fn check(file: &[u8]) -> Result<Extent, Refusal>
    ensures { Checks file.now result }
{
    if file.len() == 0 {
        return Err(Fault::FileLength.at(0));
    }
    if file.len() % 4 != 0 {
        return Err(Fault::FileLength.at(0));
    }
    head_words(file, 0, WORDS)?;
    head_words(file, WORDS, total(file) as usize)?;
    hunks(file)
}
