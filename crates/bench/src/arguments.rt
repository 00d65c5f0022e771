// The program's arguments: 1 is the verb.
use crate::saying::wrong;
use crate::status::{Failure, Outcome};
use console::rooms::room;
use std::env::Env;

// The longest argument.
pub const LONGEST: usize = 4096;

// Whether argument i fits the room for an argument; one that does not is named.
fn fits(rt: &HostRuntime, i: usize) -> Outcome {
    let mut text: [u8; LONGEST] = room(0);
    match rt.arg(i, &mut text) {
        Ok(_) => Ok(()),
        Err(_) => Err(wrong(
            rt,
            b"",
            format_args!("argument {i}: longer than {LONGEST} bytes"),
        )),
    }
}

// Whether all arguments fit.
pub fn all_fit(rt: &HostRuntime, count: usize) -> Outcome {
    (1..count).try_for_each(|i| fits(rt, i))
}
