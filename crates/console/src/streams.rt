// What the programs read: arguments, and input up to the end of a room.
ghost use Rattle.std.specs.Prelude.{◌≤◌, length};

use std::env::{Env, FillError};
use std::io::Read;

// Argument i, the program's name at 0, in this room: no bytes where there is none, or where it does not fit.
pub fn argument<'a>(rt: &impl Env, i: usize, room: &'a mut [u8]) -> &'a [u8]
    ensures { length result.now ≤ length room.old }
{
    let n = rt.arg(i, room).unwrap_or(0);
    &room[..n]
}

// Whether there is an argument i.
fn has_arg(rt: &impl Env, i: usize) -> bool {
    !matches!(rt.arg(i, &mut []), Err(FillError::NotPresent))
}

// How many arguments there are, the program's name among them.
pub fn arg_count(rt: &impl Env) -> usize {
    (0..usize::MAX)
        .find(|i| !has_arg(rt, *i))
        .unwrap_or(usize::MAX)
}

// Reads until buf is full, the input ends or a read fails, and answers how many bytes it put at the start of buf. On an
// empty buf it reads nothing.
pub fn read_full(from: &mut impl Read, buf: &mut [u8]) -> usize
    ensures { result ≤ length buf.new }
{
    let mut done: usize = 0;
    while done < buf.len() {
        let n = from.read(&mut buf[done..]).unwrap_or(0);
        if n == 0 {
            break;
        }
        done += n;
    }
    done
}
