// Words in hex, one a line.
ghost use Rattle.std.specs.Prelude.{◌≡◌, ◌+◌, ◌*◌};
ghost use Rattle.console.specs.Hex.{lowest, line_of};

use crate::rooms::room;
use std::io::Print;

// Bytes of a word, and of its line: eight digits and the end.
const WORD: usize = 4;

const LINE: usize = 9;

// How many lines are written at once.
const LINES: usize = 455;

// The lowest digit of w. By hand, since no promise can speak of what `{:X}` writes.
pub fn digit(w: u32) -> u8
    ensures { result ≡ lowest w }
{
    let d = (w % 16) as u8;
    if d < 10 { b'0' + d } else { b'A' + (d - 10) }
}

// The line of w.
pub fn line(w: u32) -> [u8; LINE]
    ensures { result ≡ line_of w }
{
    [
        digit(w / 0x10000000),
        digit(w / 0x1000000),
        digit(w / 0x100000),
        digit(w / 0x10000),
        digit(w / 0x1000),
        digit(w / 0x100),
        digit(w / 0x10),
        digit(w),
        b'\n',
    ]
}

// The word of four bytes, the highest first. By hand, since lines of what `from_be_bytes` gives take twice as long.
fn joined(a: u8, b: u8, c: u8, d: u8) -> u32
    ensures { result ≡ ((a * 256 + b) * 256 + c) * 256 + d }
{
    ((a as u32 * 256 + b as u32) * 256 + c as u32) * 256 + d as u32
}

// The words that these bytes are, a line each. The loop that fills the room for lines writes it out too: one that only
// fills it is compiled to steps of four lines at once, which take longer.
pub fn words(to: &impl Print, bytes: &[u8]) {
    let (all, _) = bytes.as_chunks::<WORD>();
    let mut lines: [[u8; LINE]; LINES] = room([0; LINE]);
    let mut filled = 0;
    for word in all {
        if filled == LINES {
            let _ = to.write_all(lines.as_flattened());
            filled = 0;
        }
        let [a, b, c, d] = word;
        lines[filled] = line(joined(*a, *b, *c, *d));
        filled += 1;
    }
    let _ = to.write_all(lines[..filled].as_flattened());
}
