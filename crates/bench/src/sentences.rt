// What each refusal's number means, in words.
use answers::sentences::{SENTENCES, put_line};
use std::io::Print;

// Says the sentence of a number; none is longer than 128 bytes. The line of a 41 goes on with two numbers.
pub fn say(to: &impl Print, number: u32) {
    let mut sentence = [0u8; 128];
    let n = put_line(&SENTENCES, number, &mut sentence);
    if let Some(text) = sentence.get(..n) {
        let _ = to.write_all(text);
    }
}
