// What a refusal's number means in words, for C and Rust.
ghost use Rattle.jufferdeeg.specs.Reasons.{Reasons};

use answers::sentences::{SENTENCES, put_line};

// Copies the sentence of a refusal's number to the output, as far as it fits, and gives the length of the whole
// sentence. It is 0 for a number that has none.
pub fn jufferdeeg_reason(number: u32, output: &mut [u8]) -> usize
    ensures { Reasons number output.old result output.new }
{
    put_line(&SENTENCES, number, output)
}
