// What the reset pin does, in one go: audit, find, read and load. The first refusal ends it.
use crate::arguments::LONGEST;
use crate::asked::Asked;
use crate::calls::Volume;
use crate::files::Kind;
use crate::rooms::Board;
use crate::saying::{refused, wrong};
use crate::status::Outcome;
use crate::volumes::{audit_image, find_path};
use crate::{bases, files, programs};
use console::rooms::room;
use console::streams::argument;
use loader::table::RECORD_LENGTH;

pub fn reset(
    rt: &HostRuntime,
    asked: Asked,
    image: &mut [u8],
    file: &mut [u8],
    board: &mut Board,
) -> Outcome {
    let named = asked.named;
    let mut left = asked.places();
    let (Some(name), Some(path), false) = (left.next(), left.next(), left.is_empty()) else {
        return Err(wrong(
            rt,
            b"reset",
            " needs an IMAGE, a PATH and a BASE for each hunk",
        ));
    };
    let mut list: [u32; bases::MOST] = room(0);
    let bases = bases::list(rt, left, &mut list)?;
    let image = files::read_argument(rt, name, Kind::Image, image)?;
    let volume = Volume { named, image };
    let mut text: [u8; LONGEST] = room(0);
    let path = argument(rt, path, &mut text);
    audit_image(rt, b"audit", volume)?;
    find_path(rt, b"find", volume, path)?;
    let file = volume
        .read(path, file)
        .map_err(|fault| refused(rt, b"read", fault, ""))?;
    let _ = println!(rt; "read: {} bytes", file.len());
    let loaded = board
        .load(file, bases)
        .map_err(|fault| programs::refused(rt, b"load", file, fault))?;
    let hunks = loaded.table.len() / RECORD_LENGTH;
    let _ = println!(rt; "load: {hunks} hunks, {} bytes", loaded.bytes.len());
    Ok(())
}
