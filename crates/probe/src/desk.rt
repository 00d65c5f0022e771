// What is held, and the rooms that calls are lent.
use crate::frame::{Body, Wrong};

// What was held last, at the start of its room.
#[derive(Drop)]
pub struct Held<'a> {
    pub room: &'a mut [u8],
    pub length: usize,
}

impl Held<'_> {
    pub fn bytes(&self) -> &[u8] {
        &self.room[..self.length.min(self.room.len())]
    }

    pub fn bytes_mut(&mut self) -> &mut [u8] {
        let length = self.length.min(self.room.len());
        &mut self.room[..length]
    }

    // The body is held from now on under this name: that is the answer. It is read straight into the room.
    pub fn hold(&mut self, rt: &HostRuntime, name: &str, body: &mut Body) -> Result<(), Wrong> {
        let length = body.rest(self.room)?.len();
        self.length = length;
        let _ = println!(rt; "{name} {length}");
        Ok(())
    }
}

// All that is kept from one request to the next.
#[derive(Drop)]
pub struct Desk<'a> {
    // the number of blocks that calls name
    pub named: u32,
    pub image: Held<'a>,
    pub file: Held<'a>,
    // for a read
    pub output: &'a mut [u8],
    // for a program
    pub memory: &'a mut [u8],
    pub table: &'a mut [u32],
    pub work: &'a mut [u8],
    // the bytes of memory and the records that the last load was lent
    pub lent_bytes: u32,
    pub lent_records: u32,
}
