// Images: audit, find and read.
ghost use Rattle.std.specs.Prelude.{◌≡◌, ◌+◌, ◌<◌, ◌≤◌, ◌^◌};
ghost use Rattle.bench.specs.Tallies.{images, OneMore};

use crate::arguments::LONGEST;
use crate::asked::Asked;
use crate::calls::Volume;
use crate::files;
use crate::files::Kind;
use crate::saying::{refused, wrong};
use crate::status::{Failure, Outcome};
use audit::audit::Report;
use console::rooms::room;
use console::streams::argument;
use lookup::find::{Found, find};
use std::io::Print;
use std::ops::Range;

// ---- the calls, and what is said of them; `who` begins the line

pub fn audit_image(rt: &HostRuntime, who: &[u8], volume: Volume) -> Outcome {
    let Report {
        directories,
        files,
        lists,
        blocks,
        used,
        free,
    } = volume.audit().map_err(|fault| refused(rt, who, fault, ""))?;
    let _ = rt.write_all(who);
    let _ = print!(rt;
        ": accepted, {directories} directories, {files} files, {lists} list blocks, "
    );
    let _ = println!(rt; "{blocks} data blocks, {used} used, {free} free");
    Ok(())
}

pub fn find_path(rt: &HostRuntime, who: &[u8], volume: Volume, path: &[u8]) -> Outcome {
    let found = find(volume.named, volume.image, path).map_err(|fault| refused(
        rt, who, fault, "",
    ))?;
    let _ = rt.write_all(who);
    let _ = match found {
        Found::Directory { key, compared } => {
            println!(rt; ": directory, key {key}, compared {compared}")
        }
        Found::File {
            key,
            size,
            compared,
        } => { println!(rt; ": file, key {key}, size {size}, compared {compared}") }
    };
    Ok(())
}

// ---- the verbs

// How many images came to what.
#[derive(Clone, Copy, Default)]
struct Tally {
    accepted: usize,
    refused: usize,
    unread: usize,
}

impl Tally {
    // One image more.
    fn add(&mut self, seen: Outcome)
        requires { images self.old + 1 < 2 ^ 64 }
        ensures counted { images self.new ≡ images self.old + 1 }
        ensures one_more { OneMore self.old self.new }
    {
        match seen {
            Ok(()) => self.accepted += 1,
            Err(Failure::Refused) => self.refused += 1,
            Err(Failure::Unasked) => self.unread += 1,
        }
    }

    // What came of all of them.
    fn outcome(self) -> Outcome {
        if self.unread > 0 {
            return Err(Failure::Unasked);
        }
        if self.refused > 0 {
            return Err(Failure::Refused);
        }
        Ok(())
    }
}

// Audits the image that argument i names.
fn audit_argument(rt: &HostRuntime, named: u32, i: usize, room: &mut [u8]) -> Outcome {
    let mut name: [u8; LONGEST] = console::rooms::room(0);
    let name = argument(rt, i, &mut name);
    let image = files::read(rt, name, Kind::Image, room)?;
    audit_image(rt, name, Volume { named, image })
}

// Audits the images that the arguments at these places name.
fn audit_each(rt: &HostRuntime, named: u32, places: Range<usize>, room: &mut [u8]) -> Tally
    ensures { places.start ≤ places.end → places.start + images result ≡ places.end }
{
    let mut tally = Tally::default();
    for i in places.start..places.end {
        tally.add(audit_argument(rt, named, i, room));
    }
    tally
}

pub fn audit_images(rt: &HostRuntime, asked: Asked, image: &mut [u8]) -> Outcome {
    let named = asked.named;
    let places = asked.places();
    let count = places.len();
    if count == 0 {
        return Err(wrong(rt, b"audit", " needs an IMAGE"));
    }
    let tally = audit_each(rt, named, places, image);
    if count > 1 {
        let Tally {
            accepted,
            refused,
            unread,
        } = tally;
        let _ = println!(rt;
            "{count} images: {accepted} accepted, {refused} refused, {unread} not read"
        );
    }
    tally.outcome()
}

// Finds the path that argument i is.
fn find_argument(rt: &HostRuntime, i: usize, volume: Volume) -> Outcome {
    let mut path: [u8; LONGEST] = room(0);
    let path = argument(rt, i, &mut path);
    find_path(rt, path, volume, path)
}

pub fn find_paths(rt: &HostRuntime, asked: Asked, image: &mut [u8]) -> Outcome {
    let named = asked.named;
    let mut left = asked.places();
    let (Some(name), false) = (left.next(), left.is_empty()) else {
        return Err(wrong(rt, b"find", " needs an IMAGE and a PATH"));
    };
    let image = files::read_argument(rt, name, Kind::Image, image)?;
    let mut all = Ok(());
    for i in left {
        all = all.max(find_argument(rt, i, Volume { named, image }));
    }
    all
}

// Writes a file's bytes, and nothing else, to standard output; a refusal goes to standard error.
pub fn read_file(rt: &HostRuntime, asked: Asked, image: &mut [u8], file: &mut [u8]) -> Outcome {
    let named = asked.named;
    let mut left = asked.places();
    let (Some(name), Some(path), true) = (left.next(), left.next(), left.is_empty()) else {
        return Err(wrong(rt, b"read", " needs an IMAGE and one PATH"));
    };
    let image = files::read_argument(rt, name, Kind::Image, image)?;
    let mut text: [u8; LONGEST] = room(0);
    let path = argument(rt, path, &mut text);
    let bytes = Volume { named, image }.read(path, file).map_err(|fault| {
        let errors = rt.stderr();
        let _ = errors.print("bench: ");
        refused(&errors, path, fault, "")
    })?;
    rt.write_all(bytes).map_err(|_| wrong(rt, path, ": cannot be written to standard output"))
}
