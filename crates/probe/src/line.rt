// Parts of an answer's line.
use answers::Refusal;

// A refusal's number and place.
pub fn refused(rt: &HostRuntime, fault: Refusal) {
    let Refusal { number, place } = fault;
    let _ = print!(rt; "refused {number} {place}");
}
