// What came of a run, and the exit status that tells it.
use std::process::ExitCode;

// Why a call, or all of a run, did not end well. Its reason has been said. Of two a script should hear of the greater.
#[derive(Clone, Copy, Debug, PartialEq, Eq, PartialOrd, Ord)]
pub enum Failure {
    // A call refused.
    Refused,

    // A wrong use, or something that could not be read or written.
    Unasked,
}

// Ok: all was accepted.
pub type Outcome = Result<(), Failure>;

impl From<Failure> for ExitCode {
    fn from(failure: Failure) -> ExitCode {
        ExitCode::from(match failure {
            Failure::Refused => 1,
            Failure::Unasked => 2,
        })
    }
}
