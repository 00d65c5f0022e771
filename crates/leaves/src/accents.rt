// Names with accents, on disks of several kinds.
use crate::build::{IMAGE, block, fill, of_kind};
use crate::names::{folds, pairs, slots};
use std::io::Print;
use volume::disk::Disk;
use volume::name;

// A plain disk, and an international one.
const KINDS: [u8; 2] = [Disk::OLD, Disk::OLD_INTERNATIONAL];

// The slots are those of single bytes, of "Meteo" and "Zurich" with accents, in small letters and in capitals, and of
// several bytes. What is no letter is spelled in hex.
pub fn accented(rt: &impl Print) {
    folds(
        rt,
        "folds",
        &[
            Disk::OLD,
            Disk::FAST,
            Disk::OLD_INTERNATIONAL,
            Disk::FAST_INTERNATIONAL,
        ],
        &[
            0x60, 0x61, 0x7A, 0x7B, 0xC0, 0xD7, 0xDE, 0xDF, 0xE0, 0xF6, 0xF7, 0xF8, 0xFE, 0xFF,
        ],
    );
    slots(
        rt,
        "slots",
        &KINDS,
        &[
            ("E0", b"\xE0"),
            ("C0", b"\xC0"),
            ("F7", b"\xF7"),
            ("D7", b"\xD7"),
            ("FE", b"\xFE"),
            ("DE", b"\xDE"),
            ("FF", b"\xFF"),
            ("DF", b"\xDF"),
            ("M(E9)t(E9)o", b"M\xE9t\xE9o"),
            ("M(C9)T(C9)O", b"M\xC9T\xC9O"),
            ("z(FC)rich", b"z\xFCrich"),
            ("Z(DC)RICH", b"Z\xDCRICH"),
            ("E0 F7 FE FF D7 C0", b"\xE0\xF7\xFE\xFF\xD7\xC0"),
        ],
    );
    pairs(
        rt,
        &KINDS,
        &[
            ("E0 C0", b"\xE0", b"\xC0"),
            ("FE DE", b"\xFE", b"\xDE"),
            ("F7 D7", b"\xF7", b"\xD7"),
            ("FF DF", b"\xFF", b"\xDF"),
            ("M(E9)t(E9)o m(C9)T(C9)O", b"M\xE9t\xE9o", b"m\xC9T\xC9O"),
            ("M(E9)t(E9)o Meteo", b"M\xE9t\xE9o", b"Meteo"),
        ],
    );
}

// The slots of two blocks' names, whether they are equal, and whether the first is another one.
fn names(rt: &impl Print, disk: Disk, image: &[u8; IMAGE]) {
    if name::name_length(image, 2) <= name::LONGEST
        && name::name_length(image, 3) <= name::LONGEST
    {
        let one = name::slot_of(disk, image, 2);
        let two = name::slot_of(disk, image, 3);
        let same = u8::from(name::same_names(disk, image, 2, 3));
        let has = u8::from(name::has_name(disk, image, 2, b"\xC9t\xC9"));
        let _ = println!(rt; "block names {one} {two} {same} {has}");
    }
}

// "ete" with two accents, in small letters and in capitals.
pub fn in_blocks(rt: &impl Print) {
    let mut image = block(2, &[(108, 0x03E974E9)]);
    fill(&mut image, 3, &[(108, 0x03C954C9)]);
    for kind in KINDS {
        names(rt, of_kind(kind), &image);
    }
}
