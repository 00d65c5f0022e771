// The lines that several verbs say.
use crate::sentences;
use crate::status::Failure;
use answers::Refusal;
use std::fmt::Display;
use std::io::Print;

// What kept the tool from asking: what it is about, and the text after it.
pub fn wrong(rt: &HostRuntime, about: &[u8], text: impl Display + Drop) -> Failure {
    let errors = rt.stderr();
    let _ = errors.print("bench: ");
    let _ = errors.write_all(about);
    let _ = errors.println(text);
    Failure::Unasked
}

// A refusal, and a note on it.
pub fn refused(to: &impl Print, who: &[u8], fault: Refusal, note: impl Display + Drop) -> Failure {
    let Refusal { number, place } = fault;
    let _ = to.write_all(who);
    let _ = print!(to; ": refused {number} at {place} (");
    sentences::say(to, number);
    let _ = println!(to; "{note})");
    Failure::Refused
}
