// What a word of the file asks of the memory and the table.
ghost use Rattle.std.specs.Prelude.{◌≡◌, ◌+◌, ◌≤◌};
ghost use Rattle.program.specs.Acts.{act_of};

use crate::reader::{Cursor, Mode, NAME};

#[derive(Clone, Copy, Debug)]
pub enum Act {
    Quiet,
    // A hunk begins: its number, its place in memory, the kind of its body. The kind is the word of the file, since the
    // hunk table hands it to C.
    Body { hunk: u32, place: usize, kind: u32 },
    // The byte in memory, the word.
    Store { place: usize, word: u32 },
    // The byte in memory, the hunk whose base is added, and the byte of the file where the offset stands.
    Add { place: usize, hunk: u32, at: usize },
}

// Where an offset of the hunk at `place` stands in memory.
fn target(place: usize, offset: u32) -> usize
    requires { place ≤ 4294967296 }
    ensures { result ≡ place + offset }
{
    place + offset as usize
}

// What the word w, at `at`, asks for.
#[tactic(auto, using(crate::proofs::Choices::choices), unfolding(crate::specs::Acts::act_of))]
pub fn act_of(c: Cursor, at: usize, w: u32) -> Act
    requires { c.place ≤ 4294967296 }
    ensures { result ≡ act_of c at w }
{
    let body = Act::Body {
        hunk: c.hunk,
        place: c.place,
        kind: w,
    };
    match c.mode {
        Mode::Begin if w == NAME => Act::Quiet,
        Mode::Begin | Mode::Body => body,
        Mode::Stored(i) => Act::Store {
            place: c.place + 4 * i as usize,
            word: w,
        },
        Mode::Offset(_, hunk) => Act::Add {
            place: target(c.place, w),
            hunk,
            at,
        },
        _ => Act::Quiet,
    }
}
