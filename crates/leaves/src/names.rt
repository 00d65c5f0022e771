// Slots, folding, and what a name may be.
use crate::build::{block, fill, of_kind};
use std::io::Print;
use volume::disk::Disk;
use volume::name;

// The slot of each name on a disk of each kind; a name is spelled first.
pub fn slots(rt: &impl Print, word: &str, kinds: &[u8], all: &[(&str, &[u8])]) {
    for (spelled, name) in all {
        let _ = print!(rt; "{word} {spelled}");
        for kind in kinds {
            if name.len() <= 255 {
                let slot = name::slot(of_kind(*kind), name);
                let _ = print!(rt; " {slot}");
            }
        }
        let _ = println!(rt;);
    }
}

// Each byte, and as it is folded on a disk of each kind.
pub fn folds(rt: &impl Print, word: &str, kinds: &[u8], all: &[u8]) {
    for byte in all {
        let _ = print!(rt; "{word} {byte:02x}");
        for kind in kinds {
            let folded = name::fold(of_kind(*kind), *byte);
            let _ = print!(rt; " {folded:02x}");
        }
        let _ = println!(rt;);
    }
}

// Whether the two names of each pair are equal on a disk of each kind; the pair is spelled first.
pub fn pairs(rt: &impl Print, kinds: &[u8], all: &[(&str, &[u8], &[u8])]) {
    for (spelled, one, two) in all {
        let _ = print!(rt; "same {spelled}");
        for kind in kinds {
            let same = u8::from(name::same(of_kind(*kind), one, two));
            let _ = print!(rt; " {same}");
        }
        let _ = println!(rt;);
    }
}

// On a disk that folds no accents.
pub fn plain(rt: &impl Print) {
    let part: &[u8] = b"/MARY/";
    slots(
        rt,
        "slot",
        &[Disk::OLD],
        &[
            ("a", b"a"),
            ("A", b"A"),
            ("c", b"c"),
            ("s", b"s"),
            ("MARY", b"MARY"),
            ("mary", b"mary"),
            ("YRAM", b"YRAM"),
            ("a{b}`~", b"a{b}`~"),
            (
                "abcdefghijklmnopqrstuvwxyz0123",
                b"abcdefghijklmnopqrstuvwxyz0123",
            ),
            ("high", b"\xE0\xC0"),
            ("part", &part[1..5]),
        ],
    );
    folds(
        rt,
        "fold",
        &[Disk::OLD],
        &[0x40, 0x41, 0x5A, 0x60, 0x61, 0x7A, 0x7B, 0xE0],
    );
    allowed(rt);
    pairs(
        rt,
        &[Disk::OLD],
        &[
            ("Mary mARY", b"Mary", b"mARY"),
            ("Mary Marx", b"Mary", b"Marx"),
            ("mary nary", b"mary", b"nary"),
            ("@ `", b"@", b"`"),
            ("[ {", b"[", b"{"),
            ("a1 A1", b"a1", b"A1"),
        ],
    );
}

// What a name may be.
fn allowed(rt: &impl Print) {
    for text in ["MARY", ".09;", "/", ":", "a/b", "a:b", "ab/", "ab:"] {
        let allowed = u8::from(name::is_allowed(text.as_bytes()));
        let _ = println!(rt; "allowed {text} {allowed}");
    }
    let part: &[u8] = b"/MARY:";
    let allowed = u8::from(name::is_allowed(&part[1..5]));
    let _ = println!(rt; "allowed part {allowed}");
}

// The first words of a block's name, of the name "MARY".
const FIRST: u32 = 0x044D4152;

const SECOND: u32 = 0x59000000;

// The length, whether it is good, and the slot of a block's name, by its length and its first seven bytes.
fn named(rt: &impl Print, first: u32, second: u32) {
    let image = block(2, &[(108, first), (109, second)]);
    let length = name::name_length(&image, 2);
    let good = u8::from(name::name_good(&image, 2));
    let _ = print!(rt; "name {length} {good}");
    if length <= name::LONGEST {
        let slot = name::slot_of(of_kind(Disk::OLD), &image, 2);
        let _ = print!(rt; " {slot}");
    }
    let _ = println!(rt;);
}

// Whether a block of the name "MARY" has a name.
fn has(rt: &impl Print, text: &str) {
    let image = block(2, &[(108, FIRST), (109, SECOND)]);
    if name::name_length(&image, 2) <= name::LONGEST {
        let has = u8::from(name::has_name(of_kind(Disk::OLD), &image, 2, text.as_bytes()));
        let _ = println!(rt; "has {text} {has}");
    }
}

// Whether a block of the name "MARY" and one of this name have one name.
fn both(rt: &impl Print, first: u32, second: u32) {
    let mut image = block(2, &[(108, FIRST), (109, SECOND)]);
    fill(&mut image, 3, &[(108, first), (109, second)]);
    if name::name_length(&image, 2) <= name::LONGEST
        && name::name_length(&image, 3) <= name::LONGEST
    {
        let same = u8::from(name::same_names(of_kind(Disk::OLD), &image, 2, 3));
        let _ = println!(rt; "same names {same}");
    }
}

// Names of blocks: "MARY", none and one of 31 bytes; and beside "MARY", "mary", "Mar" and "MARX".
pub fn in_blocks(rt: &impl Print) {
    named(rt, FIRST, SECOND);
    named(rt, 0x004D4152, SECOND);
    named(rt, 0x1F4D4152, SECOND);
    for text in ["Mary", "Marx", "Mar", "Marys"] {
        has(rt, text);
    }
    both(rt, 0x046D6172, 0x79000000);
    both(rt, 0x034D6172, SECOND);
    both(rt, FIRST, 0x58000000);
}
