// Paths: components split by '/', and the form that they must have.
ghost use Rattle.std.specs.Prelude.{◌≡◌};
ghost use Rattle.lookup.specs.Paths.{is_component, path_fault};
ghost use Rattle.lookup.specs.Parts.{FirstSlash};

use answers::{Fault, Refusal};
use volume::name::{LONGEST, is_allowed};

const LONGEST_PATH: usize = 255;

// The position of the first '/', or the path's end.
pub(crate) fn first_slash(path: &[u8]) -> usize
    ensures { FirstSlash path.now result }
{
    path.iter().position(|&b| b == b'/').unwrap_or(path.len())
}

// Whether bytes may be a component.
fn is_component(name: &[u8]) -> bool
    ensures { result ≡ is_component name.now }
{
    if name.len() < 1 || LONGEST < name.len() {
        return false;
    }
    is_allowed(name)
}

// The form of a whole path.
pub(crate) fn path_fault(path: &[u8]) -> Result<(), Refusal>
    ensures { result ≡ path_fault path.now }
{
    if LONGEST_PATH < path.len() {
        return Err(Fault::PathForm.at(0));
    }
    if path.is_empty() {
        return Ok(());
    }
    match path
        .split(|&b| b == b'/')
        .position(|name| !is_component(name))
    {
        Some(component) => Err(Fault::PathForm.at(component)),
        None => Ok(()),
    }
}
