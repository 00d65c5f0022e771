// Requests 7 and 8: the load and the move of the held file.
use crate::checksum::{of_bytes, of_numbers};
use crate::desk::Desk;
use crate::frame::{Body, NUMBERS, Wrong};
use crate::line::refused;
use answers::Refusal;
use console::rooms::room;
use loader::calls::{load, move_program};
use loader::table::RECORD_LENGTH;
use program::check::Extent;

// The longest list of bases.
const BASES: usize = 256;

// What is in the areas before a call.
const MEMORY: u8 = 0x55;

const TABLE: u32 = 0x55555555;

const WORK: u8 = 0xAA;

impl Desk<'_> {
    // A call on the held file in areas of these lengths, and its line.
    fn call<F>(
        &mut self,
        rt: &HostRuntime,
        verb: &str,
        lengths: [u32; 3],
        call: F,
    ) -> Result<(), Wrong>
    where
        F: FnOnce(&[u8], &mut [u8], &mut [u32], &mut [u8]) -> Result<Extent, Refusal>,
        requires { F.IsAlwaysCallable call }
    {
        let [bytes, records, spare] = lengths;
        let (Some(memory), Some(table), Some(work)) = (
            self.memory.get_mut(..bytes as usize),
            self.table.get_mut(..RECORD_LENGTH * records as usize),
            self.work.get_mut(..spare as usize),
        ) else {
            return Err(Wrong::Bad);
        };
        work.fill(WORK);
        match call(self.file.bytes(), memory, table, work) {
            Ok(Extent { hunks, bytes }) => {
                let _ = print!(rt; "{verb} {hunks} {bytes}");
            }
            Err(fault) => refused(rt, fault),
        }
        let memory = of_bytes(memory);
        let table = of_numbers(table);
        let work = of_bytes(work);
        let _ = println!(rt; " memory {memory} table {table} work {work}");
        Ok(())
    }

    // Request 7: memory length, records, work length, and bases.
    pub fn load(&mut self, rt: &HostRuntime, body: &mut Body) -> Result<(), Wrong> {
        let mut numbers: [u32; NUMBERS] = room(0);
        let [bytes, records, spare, bases @ ..] = body.numbers(&mut numbers)? else {
            return Err(Wrong::Bad);
        };
        if bases.len() > BASES {
            return Err(Wrong::Bad);
        }
        let lengths = [*bytes, *records, *spare];
        self.call(rt, "loaded", lengths, |file, memory, table, work| {
            memory.fill(MEMORY);
            table.fill(TABLE);
            load(file, bases, memory, table, work)
        })?;
        self.lent_bytes = *bytes;
        self.lent_records = *records;
        Ok(())
    }

    // Request 8: memory length, records, work length, count of old bases, old bases, and new bases. Memory and table
    // are parts of those that the last load was lent.
    pub fn move_program(&mut self, rt: &HostRuntime, body: &mut Body) -> Result<(), Wrong> {
        let mut numbers: [u32; NUMBERS] = room(0);
        let [bytes, records, spare, count, lists @ ..] = body.numbers(&mut numbers)? else {
            return Err(Wrong::Bad);
        };
        let Some((old, new)) = lists.split_at_checked(*count as usize) else {
            return Err(Wrong::Bad);
        };
        if old.len() > BASES
            || new.len() > BASES
            || *bytes > self.lent_bytes
            || *records > self.lent_records
        {
            return Err(Wrong::Bad);
        }
        let lengths = [*bytes, *records, *spare];
        self.call(rt, "moved", lengths, |file, memory, table, work| {
            move_program(file, old, new, memory, table, work)
        })
    }
}
