// The passes over a program file that write memory: stored words, and amounts added to targets.
ghost use Rattle.std.specs.Prelude.{◌≡◌, ◌+◌, ◌*◌, ◌%◌, ◌≤◌, length};
ghost use Rattle.words.specs.Word.{words_at};
ghost use Rattle.words.specs.Shift.{shift_all};
ghost use Rattle.program.specs.Header.{total_of};
ghost use Rattle.program.specs.Acts.{acts_of};
ghost use Rattle.program.specs.Cursors.{HeaderFits};
ghost use Rattle.loader.specs.Memory.{with_stored, shift_one, targets_of, loaded_of, amount_of};
ghost use Rattle.loader.specs.Parts.{ActFits, with_words};

use crate::steps::{Step, steps};
use program::act::Act;

// Stores the n words of the file from `at` on, the first at p and the others after it. Word by word, and no copy of
// bytes, since the law of loading speaks of words.
fn store_run(file: &[u8], at: usize, n: usize, memory: &mut [u8], p: usize)
    requires { (at + 4 * n ≤ length file.now) × (p + 4 * n ≤ length memory.old) }
    ensures { memory.new ≡ with_words memory.old p (words_at file.now at n) }
{
    for i in 0..n {
        words::put_word(memory, p + 4 * i, words::word(file, at + 4 * i));
    }
}

// Stores the words of all hunks.
pub(crate) fn store_all(file: &[u8], memory: &mut [u8])
    requires { (HeaderFits file.now) × (length file.now % 4 ≡ 0) × (loaded_of file.now ≤ length memory.old) }
    ensures { memory.new ≡ with_stored memory.old (acts_of file.now) }
{
    for step in steps(file) {
        if let Step::Words { place, at, count } = step {
            store_run(file, at, count, memory, place);
        }
    }
}

fn add_act(memory: &mut [u8], amounts: &[u32], a: Act)
    requires { ActFits (length memory.old) (length amounts.now) a }
    ensures { memory.new ≡ shift_one memory.old (amount_of amounts.now) a }
{
    if let Act::Add { place, hunk, .. } = a {
        words::add_at(memory, place, amounts[hunk as usize]);
    }
}

// Adds to each target the amount of its hunk.
pub(crate) fn add_all(file: &[u8], memory: &mut [u8], amounts: &[u32])
    requires { (HeaderFits file.now) × (length file.now % 4 ≡ 0) × (loaded_of file.now ≤ length memory.old)
        × (total_of file.now ≤ length amounts.now) }
    ensures { memory.new ≡ shift_all memory.old (targets_of file.now)
        (amount_of amounts.now) }
{
    for step in steps(file) {
        if let Step::Act(a) = step {
            add_act(memory, amounts, a);
        }
    }
}
