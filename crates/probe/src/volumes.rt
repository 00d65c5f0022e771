// Requests 2, 3, 4, 5 and 9: the held image is changed, audited, looked into and read, and the number of blocks that
// calls name.
use crate::checksum::of_bytes;
use crate::desk::Desk;
use crate::frame::{Body, Wrong};
use crate::line::refused;
use audit::audit::{Report, audit};
use console::rooms::room;
use lookup::find::{Found, find};
use reading::read::read;

// The longest claim area, and the longest path.
const CLAIM: usize = 4096;

const PATH: usize = 4096;

// What is in the claim area, and in the output of a read, before a call.
const FILLING: u8 = 0xAA;

impl Desk<'_> {
    // Request 2: an offset, and the bytes that the held image is to have there.
    pub fn patch(&mut self, rt: &HostRuntime, body: &mut Body) -> Result<(), Wrong> {
        let offset = body.number()? as usize;
        let Some(part) = self.image.bytes_mut().get_mut(offset..) else {
            return Err(Wrong::Bad);
        };
        body.rest(part)?;
        let _ = println!(rt; "patched");
        Ok(())
    }

    // Request 3: the length of the claim area.
    pub fn audit(&self, rt: &HostRuntime, body: &mut Body) -> Result<(), Wrong> {
        let length = body.number()? as usize;
        body.end()?;
        let mut room: [u8; CLAIM] = room(FILLING);
        let Some(claim) = room.get_mut(..length) else {
            return Err(Wrong::Bad);
        };
        match audit(self.named, self.image.bytes(), claim) {
            Ok(report) => accepted(rt, report),
            Err(fault) => refused(rt, fault),
        }
        let claim = of_bytes(claim);
        let _ = println!(rt; " claim {claim}");
        Ok(())
    }

    // Request 4: a path.
    pub fn find(&self, rt: &HostRuntime, body: &mut Body) -> Result<(), Wrong> {
        let mut path: [u8; PATH] = room(0);
        let path = body.rest(&mut path)?;
        let _ = match find(self.named, self.image.bytes(), path) {
            Ok(Found::Directory { key, compared }) => println!(rt; "directory {key} 0 {compared}"),
            Ok(
                Found::File {
                    key,
                    size,
                    compared,
                },
            ) => println!(rt; "file {key} {size} {compared}"),
            Err(fault) => {
                refused(rt, fault);
                println!(rt;)
            }
        };
        Ok(())
    }

    // Request 5: an offset, the length of the output, and a path.
    pub fn read(&mut self, rt: &HostRuntime, body: &mut Body) -> Result<(), Wrong> {
        let offset = body.number()? as usize;
        let length = body.number()? as usize;
        let mut path: [u8; PATH] = room(0);
        let path = body.rest(&mut path)?;
        if length > self.output.len() {
            return Err(Wrong::Bad);
        }
        let output = &mut self.output[..length];
        output.fill(FILLING);
        match read(self.named, self.image.bytes(), path, offset, output) {
            Ok(count) => {
                let _ = print!(rt; "bytes {count}");
            }
            Err(fault) => refused(rt, fault),
        }
        let output = of_bytes(output);
        let _ = println!(rt; " out {output}");
        Ok(())
    }

    // Request 9: the number of blocks that later requests name.
    pub fn name(&mut self, rt: &HostRuntime, body: &mut Body) -> Result<(), Wrong> {
        let blocks = body.number()?;
        body.end()?;
        self.named = blocks;
        let _ = println!(rt; "disk {blocks}");
        Ok(())
    }
}

// The six numbers of an accepted volume.
fn accepted(rt: &HostRuntime, report: Report) {
    let Report {
        directories,
        files,
        lists,
        blocks,
        used,
        free,
    } = report;
    let _ = print!(rt; "accepted {directories} {files} {lists} {blocks} {used} {free}");
}
