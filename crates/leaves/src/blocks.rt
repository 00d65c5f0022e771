// A good block of each kind, and the same with one rule broken at a time.
use crate::build::{IMAGE, block};
use crate::kinds::{
    BITMAP, DATA, DIRECTORY, HEADER, Kind, LIST, ROOT, data_block, data_test, header_block, mary,
};
use std::io::Print;
use volume::disk::Disk;
use volume::entry::entry_fault;
use volume::file::{file_fault, key_of, list_fault};
use volume::root::{bitmap_fault, map_fault, root_fault};

// The word that holds a name's length and its first three bytes.
const NAME: usize = 108;

// A name of no bytes, of 1, 30, 31 and 255, and of 4 with a '/' or a ':'.
const EMPTY: u32 = 0x004D4152;

const SHORT: u32 = 0x014D4152;

const LONG: u32 = 0x1E4D4152;

const LONGER: u32 = 0x1F4D4152;

const LONGEST: u32 = 0xFF4D4152;

const SLASH: u32 = 0x042F4152;

const COLON: u32 = 0x043A4152;

// Disks of the image's size, of the old and of the Fast File System.
const SMALL: Disk = Disk { blocks: 8, kind: 0 };

const SMALL_FAST: Disk = Disk { blocks: 8, kind: 1 };

// And floppies.
const FLOPPY: Disk = Disk {
    blocks: 1760,
    kind: 0,
};

const FAST_FLOPPY: Disk = Disk {
    blocks: 1760,
    kind: 1,
};

fn root_block() -> [u8; IMAGE] {
    mary(
        ROOT,
        &[(0, 2), (3, 72), (78, 0xFFFFFFFF), (79, BITMAP), (127, 1)],
    )
}

pub fn root(rt: &impl Print) {
    let root = Kind {
        name: "root",
        key: ROOT,
        image: root_block(),
        test: |image: &[u8; IMAGE]| root_fault(SMALL, image),
    };
    root.good(rt);
    root.unmended(rt, &[(6, DIRECTORY), (0, 3)]);
    root.changed(
        rt,
        &[
            // types and fixed words
            &[(0, 0)],
            &[(0, 16)],
            &[(127, 0)],
            &[(127, 2)],
            &[(127, 3)],
            &[(127, 4)],
            &[(127, 0xFFFFFFFC)],
            &[(127, 0xFFFFFFFD)],
            &[(127, 3), (1, ROOT)],
            &[(1, 1)],
            &[(2, 1)],
            &[(4, 1)],
            &[(124, 1)],
            &[(125, 1)],
            &[(126, 1)],
            &[(3, 0)],
            &[(3, 71)],
            // words that are not tested here
            &[(6, 1)],
            &[(77, 0xFFFFFFFF)],
            &[(78, 0)],
            &[(79, 0)],
            &[(79, ROOT)],
            &[(80, 1)],
            &[(104, 1)],
            &[(123, 1)],
            // names
            &[(NAME, EMPTY), (126, 1)],
            &[(NAME, EMPTY)],
            &[(NAME, SHORT)],
            &[(NAME, LONG)],
            &[(NAME, LONGER)],
            &[(NAME, LONGEST)],
            &[(NAME, SLASH)],
            &[(NAME, COLON)],
            &[(NAME + 1, 0x2F000000)],
            &[(NAME + 1, 0x592F0000)],
        ],
    );
}

// The root's words about the bitmap.
pub fn map(rt: &impl Print) {
    let map = Kind {
        name: "map",
        key: ROOT,
        image: root_block(),
        test: |image: &[u8; IMAGE]| map_fault(SMALL, image),
    };
    map.good(rt);
    map.changed(
        rt,
        &[
            &[(78, 0)],
            &[(78, 1)],
            &[(78, 0xFFFFFFFE)],
            &[(80, 1)],
            &[(92, 0x80000000)],
            &[(104, 1)],
            &[(77, 1)],
            &[(79, 0)],
            &[(79, 0xFFFFFFFF)],
            &[(105, 1)],
        ],
    );
}

// The bitmap block: only its sum is tested.
pub fn bitmap(rt: &impl Print) {
    let bitmap = Kind {
        name: "bitmap",
        key: BITMAP,
        image: block(BITMAP, &[(1, 0xFFFFFFFF)]),
        test: |image: &[u8; IMAGE]| bitmap_fault(image, BITMAP),
    };
    bitmap.good(rt);
    bitmap.unmended(rt, &[(0, 1), (127, 0x80000000)]);
    bitmap.changed(
        rt,
        &[
            &[(0, 2)],
            &[(1, 0)],
            &[(55, 0xFFFFFFFF)],
            &[(127, 0xFFFFFFFD)],
        ],
    );
}

pub fn directory(rt: &impl Print) {
    let directory = Kind {
        name: "directory",
        key: DIRECTORY,
        image: mary(DIRECTORY, &[(0, 2), (1, DIRECTORY), (125, ROOT), (127, 2)]),
        test: |image: &[u8; IMAGE]| entry_fault(SMALL, image, None, DIRECTORY, ROOT, 65),
    };
    directory.good(rt);
    directory.unmended(rt, &[(124, HEADER), (0, 3), (127, 3)]);
    directory.changed(
        rt,
        &[
            // types
            &[(0, 0)],
            &[(0, 8)],
            &[(0, 16)],
            &[(0, 3), (127, 3)],
            &[(127, 3)],
            &[(127, 4)],
            &[(127, 0xFFFFFFFC)],
            &[(127, 4), (1, 0)],
            &[(127, 0)],
            &[(127, 1)],
            &[(127, 5)],
            &[(127, 0xFFFFFFFE)],
            &[(127, 0xFFFFFFFD)],
            &[(127, 0), (1, 0)],
            // own key, parent and w126
            &[(1, 0)],
            &[(1, HEADER)],
            &[(125, 0)],
            &[(125, DIRECTORY)],
            &[(126, LIST)],
            &[(126, LIST), (NAME, EMPTY)],
            // words that are not tested here
            &[(2, 1)],
            &[(3, 72)],
            &[(4, DATA)],
            &[(6, 0xFFFFFFFF)],
            &[(81, 0xFFFFFFFF)],
            &[(124, 0xFFFFFFFF)],
            // names
            &[(NAME, EMPTY)],
            &[(NAME, LONGER)],
            &[(NAME, SLASH)],
            &[(NAME, COLON)],
            &[(NAME, SHORT)],
            &[(NAME, LONG)],
            &[(NAME + 1, 0x58000000)],
            &[(NAME + 1, 0x79000000)],
            &[(NAME + 1, 0x592F3A00)],
            &[(NAME, 0x046D6172), (NAME + 1, 0x79000000)],
        ],
    );
}

// A file's header, tested as an entry.
pub fn header(rt: &impl Print) {
    let header = Kind {
        name: "header",
        key: HEADER,
        image: header_block(2, DATA, 489, 0),
        test: |image: &[u8; IMAGE]| entry_fault(SMALL, image, None, HEADER, ROOT, 24),
    };
    header.good(rt);
    header.unmended(rt, &[(81, 488), (127, 3)]);
    header.changed(
        rt,
        &[
            &[(0, 8)],
            &[(127, 0xFFFFFFFC)],
            &[(127, 0xFFFFFFFF)],
            &[(1, DATA)],
            &[(125, DIRECTORY)],
            &[(126, LIST)],
            &[(126, LIST), (127, 2)],
            &[(NAME, 0x00730000)],
            &[(NAME, 0x013A0000)],
            &[(NAME, 0x01740000)],
            &[(NAME, 0x01530000)],
            &[(2, 73)],
            &[(4, 0)],
            &[(81, 0xFFFFFFFF)],
        ],
    );
}

// A file's own tests: of 489 bytes, of 35,137 bytes, and of none.
pub fn file(rt: &impl Print) {
    let file = Kind {
        name: "file",
        key: HEADER,
        image: header_block(2, DATA, 489, 0),
        test: |image: &[u8; IMAGE]| file_fault(FLOPPY, image, HEADER),
    };
    file.good(rt);
    file.changed(
        rt,
        &[
            &[(2, 0)],
            &[(2, 1)],
            &[(2, 3)],
            &[(126, LIST)],
            &[(4, 0)],
            &[(81, 488)],
            &[(81, 976)],
            &[(81, 977)],
            &[(81, 856441)],
            &[(81, 0xFFFFFFFF)],
        ],
    );
    let long = Kind {
        name: "long",
        key: HEADER,
        image: header_block(72, DATA, 35137, LIST),
        test: |image: &[u8; IMAGE]| file_fault(FLOPPY, image, HEADER),
    };
    long.good(rt);
    long.changed(
        rt,
        &[
            &[(2, 1)],
            &[(2, 73)],
            &[(126, 0)],
            &[(81, 35136)],
            &[(81, 35136), (126, 0)],
            &[(81, 856440)],
            &[(81, 856441)],
        ],
    );
    let empty = Kind {
        name: "empty",
        key: HEADER,
        image: header_block(0, 0, 0, 0),
        test: |image: &[u8; IMAGE]| file_fault(FLOPPY, image, HEADER),
    };
    empty.good(rt);
    empty.changed(
        rt,
        &[
            &[(2, 1)],
            &[(4, DATA)],
            &[(81, 1)],
            &[(126, LIST)],
            &[(2, 1), (81, 1)],
        ],
    );
}

// A file's own tests on a disk of the Fast File System: of 513 bytes, of 36,865 bytes, and of none. w4 is not tested.
pub fn fast_file(rt: &impl Print) {
    let file = Kind {
        name: "fast file",
        key: HEADER,
        image: header_block(2, 0, 513, 0),
        test: |image: &[u8; IMAGE]| file_fault(FAST_FLOPPY, image, HEADER),
    };
    file.good(rt);
    file.changed(
        rt,
        &[
            &[(2, 1)],
            &[(2, 3)],
            &[(4, 0xFFFFFFFF)],
            &[(126, LIST)],
            &[(81, 512)],
            &[(81, 1024)],
            &[(81, 1025)],
            &[(81, 898561)],
        ],
    );
    let long = Kind {
        name: "fast long",
        key: HEADER,
        image: header_block(72, 0, 36865, LIST),
        test: |image: &[u8; IMAGE]| file_fault(FAST_FLOPPY, image, HEADER),
    };
    long.good(rt);
    long.changed(
        rt,
        &[
            &[(126, 0)],
            &[(81, 36864)],
            &[(81, 36864), (126, 0)],
            &[(81, 856441)],
            &[(81, 898560)],
            &[(81, 898561)],
        ],
    );
    let empty = Kind {
        name: "fast empty",
        key: HEADER,
        image: header_block(0, 0, 0, 0),
        test: |image: &[u8; IMAGE]| file_fault(FAST_FLOPPY, image, HEADER),
    };
    empty.good(rt);
    empty.changed(rt, &[&[(4, DATA)], &[(2, 1)]]);
}

// Data keys, downward from w77.
pub fn keys(rt: &impl Print) {
    let image = block(HEADER, &[(6, 106), (7, 107), (76, 176), (77, 177)]);
    for i in [0, 1, 70, 71] {
        let key = key_of(&image, HEADER, i);
        let _ = println!(rt; "listed {i} {key}");
    }
}

fn list_block() -> [u8; IMAGE] {
    block(
        LIST,
        &[(0, 16), (1, LIST), (2, 1), (125, HEADER), (127, 0xFFFFFFFD)],
    )
}

// A list block, with 1, 72 and 73 keys still to come.
pub fn list(rt: &impl Print) {
    let one = Kind {
        name: "list 1",
        key: LIST,
        image: list_block(),
        test: |image: &[u8; IMAGE]| list_fault(SMALL, image, None, LIST, HEADER, 1),
    };
    one.good(rt);
    one.unmended(rt, &[(77, DATA), (0, 2)]);
    one.changed(
        rt,
        &[
            &[(0, 2)],
            &[(0, 8)],
            &[(127, 2)],
            &[(127, 3)],
            &[(127, 0xFFFFFFFC)],
            &[(127, 2), (1, 0)],
            &[(1, HEADER)],
            &[(125, 0)],
            &[(125, LIST)],
            &[(125, 0), (2, 2)],
            &[(4, 1)],
            &[(76, 1)],
            &[(81, 1)],
            &[(124, 1)],
            // its count and w126
            &[(2, 0)],
            &[(2, 2)],
            &[(126, DATA)],
        ],
    );
    let full = Kind {
        name: "list 72",
        key: LIST,
        image: list_block(),
        test: |image: &[u8; IMAGE]| list_fault(SMALL, image, None, LIST, HEADER, 72),
    };
    full.changed(rt, &[&[(2, 71)], &[(2, 72)], &[(2, 72), (126, DATA)]]);
    let more = Kind {
        name: "list 73",
        key: LIST,
        image: list_block(),
        test: |image: &[u8; IMAGE]| list_fault(SMALL, image, None, LIST, HEADER, 73),
    };
    more.changed(
        rt,
        &[
            &[(2, 72)],
            &[(2, 73)],
            &[(2, 72), (126, DATA)],
            &[(2, 1), (126, DATA)],
        ],
    );
}

// Data blocks: the last of a file of 489 bytes, one that the block before it does not name, the first, and the one of a
// file of 488.
pub fn data(rt: &impl Print) {
    let last = Kind {
        name: "last",
        key: DATA,
        image: data_block(2, 1, 0),
        test: |image: &[u8; IMAGE]| data_test(SMALL, image, 489, 2, HEADER),
    };
    last.good(rt);
    last.unmended(rt, &[(6, 0x41000000), (0, 2)]);
    last.changed(
        rt,
        &[
            &[(0, 2)],
            &[(0, 16)],
            &[(0, 2), (1, 0)],
            &[(1, DATA)],
            &[(2, 1)],
            &[(2, 3)],
            &[(3, 0)],
            &[(3, 2)],
            &[(3, 488)],
            &[(4, LIST)],
            &[(6, 0xFFFFFFFF)],
            &[(127, 3)],
        ],
    );
    let unnamed = Kind {
        name: "unnamed",
        key: DATA,
        image: data_block(2, 1, 0),
        test: |image: &[u8; IMAGE]| data_test(SMALL, image, 489, 2, LIST),
    };
    unnamed.good(rt);
    unnamed.changed(rt, &[&[(0, 2)]]);
    let first = Kind {
        name: "first",
        key: DATA,
        image: data_block(1, 488, LIST),
        test: |image: &[u8; IMAGE]| data_test(SMALL, image, 489, 1, HEADER),
    };
    first.good(rt);
    first.changed(rt, &[&[(2, 2)], &[(3, 1)], &[(3, 489)], &[(4, 0)]]);
    let only = Kind {
        name: "only",
        key: DATA,
        image: data_block(1, 488, 0),
        test: |image: &[u8; IMAGE]| data_test(SMALL, image, 488, 1, HEADER),
    };
    only.good(rt);
    only.changed(rt, &[&[(3, 487)], &[(4, LIST)]]);
}

// A data block of the Fast File System may hold anything, and the block before it may name another.
pub fn fast_data(rt: &impl Print) {
    let data = Kind {
        name: "fast data",
        key: DATA,
        image: block(DATA, &[]),
        test: |image: &[u8; IMAGE]| data_test(SMALL_FAST, image, 513, 2, LIST),
    };
    data.good(rt);
    data.unmended(rt, &[(6, 0x41000000), (0, 2)]);
    data.changed(rt, &[&[(0, 16)], &[(1, DATA)], &[(4, LIST)]]);
}
