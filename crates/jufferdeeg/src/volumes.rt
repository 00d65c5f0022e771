// Audit, find and read, for C and Rust. The answers are structs of numbers, since C has no Result.
ghost use Rattle.std.specs.Prelude.{◌≡◌, length};
ghost use Rattle.jufferdeeg.specs.Volumes.{audit_numbers, find_numbers, read_numbers, find_in_image, AuditsImage};
ghost use Rattle.jufferdeeg.specs.Volumes.{ReadsImage};

use answers::Refusal;
use audit::audit::Report;
use lookup::find::Found;
use volume::block::Block;

// An audit's answer: refused where the number is not 0.
#[repr(C)]
#[derive(Clone, Copy, Debug, PartialEq, Eq)]
pub struct AuditNumbers {
    pub number: u32,
    pub place: usize,
    pub directories: u32,
    pub files: u32,
    pub list_blocks: u32,
    pub data_blocks: u32,
    pub used: u32,
    pub free: u32,
}

// What a path leads to: kind 2 is a directory, hex FFFFFFFD a file.
#[repr(C)]
#[derive(Clone, Copy, Debug, PartialEq, Eq)]
pub struct FindNumbers {
    pub number: u32,
    pub place: usize,
    pub kind: u32,
    pub key: u32,
    pub size: u32,
    pub compared: u32,
}

// How many bytes a read copied.
#[repr(C)]
#[derive(Clone, Copy, Debug, PartialEq, Eq)]
pub struct ReadNumbers {
    pub number: u32,
    pub place: usize,
    pub count: usize,
}

impl From<Result<Report, Refusal>> for AuditNumbers {
    ghost from_gives = { λ a n. n ≡ audit_numbers a };

    fn from(answer: Result<Report, Refusal>) -> AuditNumbers {
        match answer {
            Ok(report) => AuditNumbers {
                number: 0,
                place: 0,
                directories: report.directories,
                files: report.files,
                list_blocks: report.lists,
                data_blocks: report.blocks,
                used: report.used,
                free: report.free,
            },
            Err(refusal) => AuditNumbers {
                number: refusal.number,
                place: refusal.place,
                directories: 0,
                files: 0,
                list_blocks: 0,
                data_blocks: 0,
                used: 0,
                free: 0,
            },
        }
    }
}

// An entry that was found.
fn found(kind: u32, key: u32, size: u32, compared: u32) -> FindNumbers
    ensures { result ≡ record { number = 0; place = 0; kind = kind; key = key; size = size; compared = compared } }
{
    FindNumbers {
        number: 0,
        place: 0,
        kind,
        key,
        size,
        compared,
    }
}

impl From<Result<Found, Refusal>> for FindNumbers {
    ghost from_gives = { λ a n. n ≡ find_numbers a };

    fn from(answer: Result<Found, Refusal>) -> FindNumbers {
        match answer {
            Ok(Found::Directory { key, compared }) => found(Block::DIRECTORY, key, 0, compared),
            Ok(
                Found::File {
                    key,
                    size,
                    compared,
                },
            ) => found(Block::FILE, key, size, compared),
            Err(refusal) => FindNumbers {
                number: refusal.number,
                place: refusal.place,
                kind: 0,
                key: 0,
                size: 0,
                compared: 0,
            },
        }
    }
}

impl From<Result<usize, Refusal>> for ReadNumbers {
    ghost from_gives = { λ a n. n ≡ read_numbers a };

    fn from(answer: Result<usize, Refusal>) -> ReadNumbers {
        match answer {
            Ok(count) => ReadNumbers {
                number: 0,
                place: 0,
                count,
            },
            Err(refusal) => ReadNumbers {
                number: refusal.number,
                place: refusal.place,
                count: 0,
            },
        }
    }
}

// Audits an image: that of a disk of the `named` number of blocks, or of either size where 0 is named, and of the kind
// that its boot tag names.
pub fn jufferdeeg_audit(named: u32, image: &[u8], claim: &mut [u8]) -> AuditNumbers
    ensures { AuditsImage named image.now (length claim.old) result claim.new }
{
    AuditNumbers::from(audit::audit::audit(named, image, claim))
}

// What a path leads to on such an image.
pub fn jufferdeeg_find(named: u32, image: &[u8], path: &[u8]) -> FindNumbers
    ensures { result ≡ find_in_image named image.now path.now }
{
    FindNumbers::from(lookup::find::find(named, image, path))
}

// Reads a file of such an image from an offset on.
pub fn jufferdeeg_read(
    named: u32,
    image: &[u8],
    path: &[u8],
    offset: usize,
    output: &mut [u8],
) -> ReadNumbers
    ensures { ReadsImage named image.now path.now offset output.old result
        output.new }
{
    ReadNumbers::from(reading::read::read(named, image, path, offset, output))
}
