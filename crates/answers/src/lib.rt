// What every call answers where it refuses.
#![tactic(auto)]

pub mod sentences;

ghost use Rattle.std.specs.Prelude.{◌≡◌};
ghost use Rattle.answers.specs.Refusals.{number_of, refused_at};

// Why a call refuses.
#[derive(Clone, Copy, Debug, PartialEq, Eq)]
pub enum Fault {
    // The image is not as long as its disk.
    ImageLength,

    // The claim area is too short.
    ClaimArea,

    // The boot tag is another.
    BootTag,

    // A fixed word of the root.
    RootWords,

    // A key outside the volume.
    BadKey,

    // A block that is claimed already; in a lookup, a chain that is too long.
    ClaimedTwice,

    // The words of a block do not add up to 0.
    BlockSum,

    // The types of a block.
    BlockType,

    // An entry that is a link.
    Link,

    // Own key, parent, or w126 of a directory.
    WrongTies,

    // A name that may not be one.
    BadName,

    // An entry in another slot than its name's.
    WrongSlot,

    // A name that an earlier entry of the directory has.
    DoubleName,

    // Size, count or links of a file.
    FileLayout,

    // The words of a data block, or its key.
    DataLayout,

    // The root's words beside the bitmap key.
    BitmapWords,

    // A bit of the bitmap.
    WrongBit,

    // The form of a path.
    PathForm,

    // No entry has the name.
    NotFound,

    // A file used as a directory, or a directory that is read.
    WrongKind,

    // A program file that is empty or not made of words.
    FileLength,

    // A word that is needed after the end.
    EarlyEnd,

    // A word of the header.
    HeaderWord,

    // A library is named.
    Library,

    // A hunk's size.
    HunkSize,

    // A block type that may not stand there.
    MisplacedBlock,

    // A body that is longer than its hunk.
    BodyLength,

    // The type of a symbol.
    SymbolType,

    // A hunk number or an offset.
    BadTarget,

    // A word after the last hunk.
    TrailingWords,

    // A list of bases.
    BadBase,

    // Memory, table or work area.
    ShortRoom,

    // A target too near an earlier one of its hunk.
    NearTargets,

    // A hunk that asks for chip and fast memory at once.
    BothMemories,
}

impl From<Fault> for u32 {
    ghost from_gives = { λ f n. n ≡ number_of f };

    // The number that it has for every caller, C's too.
    fn from(fault: Fault) -> u32 {
        match fault {
            Fault::ImageLength => 1,
            Fault::ClaimArea => 2,
            Fault::BootTag => 3,
            Fault::RootWords => 4,
            Fault::BadKey => 5,
            Fault::ClaimedTwice => 6,
            Fault::BlockSum => 7,
            Fault::BlockType => 8,
            Fault::Link => 9,
            Fault::WrongTies => 10,
            Fault::BadName => 11,
            Fault::WrongSlot => 12,
            Fault::DoubleName => 13,
            Fault::FileLayout => 14,
            Fault::DataLayout => 15,
            Fault::BitmapWords => 16,
            Fault::WrongBit => 17,
            Fault::PathForm => 18,
            Fault::NotFound => 19,
            Fault::WrongKind => 20,
            Fault::FileLength => 30,
            Fault::EarlyEnd => 31,
            Fault::HeaderWord => 32,
            Fault::Library => 33,
            Fault::HunkSize => 34,
            Fault::MisplacedBlock => 35,
            Fault::BodyLength => 36,
            Fault::SymbolType => 37,
            Fault::BadTarget => 38,
            Fault::TrailingWords => 39,
            Fault::BadBase => 40,
            Fault::ShortRoom => 41,
            Fault::NearTargets => 42,
            Fault::BothMemories => 43,
        }
    }
}

impl Fault {
    // The refusal that says it of a place.
    pub fn at(self, place: usize) -> Refusal
        ensures { result ≡ refused_at self place }
    {
        Refusal {
            number: u32::from(self),
            place,
        }
    }
}

// A refusal's number, and the place that it is about: a key, a byte, a component or an entry. It has the number and not
// the fault, since C is handed it and the theorems speak of it.
#[derive(Clone, Copy, Debug, PartialEq, Eq)]
pub struct Refusal {
    pub number: u32,
    pub place: usize,
}
