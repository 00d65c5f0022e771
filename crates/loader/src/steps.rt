// What a program file asks for, in file order: one iterator for every pass over a file.
ghost use Rattle.std.specs.Prelude.{◌≡◌, ◌-◌, ◌%◌, length};
ghost use Rattle.std.specs.Iterator.{at_most};
ghost use Rattle.program.specs.Acts.{acts_of};
ghost use Rattle.program.specs.Cursors.{HeaderFits};
ghost use Rattle.program.specs.Runs.{Reads};
ghost use Rattle.loader.specs.Steps.{asked, left, Quietly, Gives};

use program::act::{Act, act_of};
use program::header::{WORDS, total};
use program::reader::{Cursor, Mode, Spot, begin, past, step};

// A step over a file's words.
#[derive(Clone, Copy, Debug)]
pub(crate) enum Step {
    // A word that is not stored, and what it asks for.
    Act(Act),
    // So many stored words, from byte `at` of the file on. The first goes to byte `place` of memory, the others after
    // it. They come in one step, since a step for each of them is slower.
    Words {
        place: usize,
        at: usize,
        count: usize,
    },
}

// The words of a file from byte `at` on, where the reader is at the cursor.
#[derive(Drop)]
pub(crate) struct Pass<'a> {
    file: &'a [u8],
    cursor: Cursor,
    at: usize,
}

// After the words from `at` on that are passed over, as many as there are: they ask for nothing, and a step for each
// of them, or for all of them, is slower than none.
fn skipped(file: &[u8], c: Cursor, at: usize) -> Spot
    requires { Reads file.now c at }
    ensures { Quietly file.now c at result.cursor result.at }
{
    if let Mode::Skip(_, _) = c.mode {
        return past(file, c, at);
    }
    Spot { cursor: c, at }
}

// All steps of a file whose header passed the tests.
pub(crate) fn steps(file: &[u8]) -> Pass
    requires { (HeaderFits file.now) × (length file.now % 4 ≡ 0) }
    ensures file { result.file.now ≡ file.now }
    ensures reads { Reads result.file.now result.cursor result.at }
    ensures all { left result ≡ asked (acts_of file.now) }
{
    Pass {
        file,
        cursor: begin(),
        at: 4 * WORDS + 4 * total(file) as usize,
    }
}

impl<'a> Iterator for Pass<'a> {
    type Item = Step;

    ghost can_next = { λ s. Reads s.file.now s.cursor s.at };

    ghost next_gives = { Gives };

    ghost remaining = { λ s. at_most (length s.file.now - s.at) };

    // The end of the file ends the steps, and so does a word that may not stand there. Inlined, as `step` is.
    #[inline(always)]
    fn next(&mut self) -> Option<Step> {
        let file = self.file;
        let cursor = self.cursor;
        let at = self.at;
        if file.len() <= at {
            return None;
        }
        if let Mode::Stored(i) = cursor.mode {
            let spot = past(file, cursor, at);
            self.cursor = spot.cursor;
            self.at = spot.at;
            return Some(Step::Words {
                place: cursor.place + 4 * i as usize,
                at,
                count: (spot.at - at) / 4,
            });
        }
        let word = words::word(file, at);
        let on = step(file, cursor, word).ok()?;
        let spot = skipped(file, on, at + 4);
        self.cursor = spot.cursor;
        self.at = spot.at;
        Some(Step::Act(act_of(cursor, at, word)))
    }
}
