// A loaded program in lines: its words, and its hunks.
use crate::calls::Loaded;
use console::hex::{digit, line, words};
use loader::table::RECORD_LENGTH;
use program::header::{CHIP, FAST};
use std::io::Print;

// The records of a table. Their hex is that of `console::hex`, whose digits are proved.
fn hunks(rt: &HostRuntime, table: &[u32]) {
    let (records, _) = table.as_chunks::<RECORD_LENGTH>();
    for (i, record) in records.iter().enumerate() {
        let [kind, place, size, base, memory] = *record;
        let memory = match memory {
            CHIP => "chip",
            FAST => "fast",
            _ => "any",
        };
        let _ = print!(rt; "hunk {i}: kind ");
        let _ = rt.write_all(&[digit(kind / 256), digit(kind / 16), digit(kind)]);
        let _ = print!(rt; ", place {place}, size {size}, base ");
        let _ = rt.write_all(&line(base)[..8]);
        let _ = println!(rt; ", memory {memory}");
    }
}

pub fn program(rt: &HostRuntime, loaded: Loaded) {
    words(rt, loaded.bytes);
    hunks(rt, loaded.table);
}
