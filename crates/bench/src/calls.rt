// The calls on what is lent, with answers that hold what they speak of.
ghost use Rattle.std.specs.Prelude.{◌*◌, ◌≤◌, length};
ghost use Rattle.loader.specs.Table.{record_length};

use crate::rooms::Board;
use answers::Refusal;
use audit::audit::Report;
use console::rooms::room;
use loader::table::RECORD_LENGTH;
use program::check::Extent;

// An image, and the number of blocks that calls name.
#[derive(Clone, Copy)]
pub struct Volume<'a> {
    pub named: u32,
    pub image: &'a [u8],
}

impl Volume<'_> {
    // The claim area has more bytes than there are blocks.
    pub fn audit(self) -> Result<Report, Refusal> {
        let mut claim: [u8; 4096] = room(0);
        audit::audit::audit(self.named, self.image, &mut claim)
    }

    // A file from its start.
    pub fn read<'a>(self, path: &[u8], output: &'a mut [u8]) -> Result<&'a [u8], Refusal> {
        let n = reading::read::read(self.named, self.image, path, 0, output)?;
        Ok(&output[..n])
    }
}

// A loaded program: its bytes in memory, and the records of its hunks.
#[derive(Drop)]
pub struct Loaded<'a> {
    pub bytes: &'a [u8],
    pub table: &'a [u32],
}

impl Board<'_> {
    // The program of this extent.
    fn program(&self, extent: Extent) -> Loaded<'_>
        requires { (extent.bytes ≤ length self.now.memory.now)
            × (record_length * extent.hunks ≤ length self.now.table.now) }
    {
        Loaded {
            bytes: &self.memory[..extent.bytes],
            table: &self.table[..RECORD_LENGTH * extent.hunks as usize],
        }
    }

    // Loads a file.
    pub fn load(&mut self, file: &[u8], bases: &[u32]) -> Result<Loaded<'_>, Refusal> {
        let extent = loader::calls::load(file, bases, self.memory, self.table, self.work)?;
        Ok(self.program(extent))
    }

    // Moves a loaded file.
    pub fn move_program(
        &mut self,
        file: &[u8],
        old: &[u32],
        new: &[u32],
    ) -> Result<Loaded<'_>, Refusal> {
        let extent = loader::calls::move_program(
            file,
            old,
            new,
            self.memory,
            self.table,
            self.work,
        )?;
        Ok(self.program(extent))
    }
}
