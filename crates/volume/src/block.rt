// A block: 128 words, w0 to w127.
ghost use Rattle.std.specs.Prelude.{◌≡◌, ◌+◌, ◌*◌, ◌/◌, ◌<◌};
ghost use Rattle.words.specs.Sum.{block_words};
ghost use Rattle.volume.specs.Blocks.{block_bytes, Holds, word_of, sum_of};

// How much a block has of what, which of its words means what, and where a word stands.
#[derive(Drop)]
pub struct Block;

impl Block {
    pub const WORDS: usize = words::BLOCK_WORDS;

    pub const BYTES: usize = 4 * Block::WORDS;

    // Hash slots of a directory, and data keys of a header or a list block.
    pub const SLOTS: usize = 72;

    // Bytes of a file in a data block that has words of its own, as on the old file system; they are its last bytes.
    pub const DATA: usize = 488;

    // The words that have a meaning, by their numbers.
    pub const TYPE: usize = 0;

    pub const OWN_KEY: usize = 1;

    pub const COUNT: usize = 2;

    pub const TABLE: usize = 3;

    pub const FIRST_DATA: usize = 4;

    pub const FIRST_SLOT: usize = 6;

    // Data keys go downward from here.
    pub const DATA_KEYS: usize = 77;

    pub const MAP_VALID: usize = 78;

    pub const MAP_KEY: usize = 79;

    pub const SIZE: usize = 81;

    pub const NEXT: usize = 124;

    pub const PARENT: usize = 125;

    pub const LIST: usize = 126;

    pub const KIND: usize = 127;

    // In a data block: its header, its number, the bytes it holds, and the key of the one that follows.
    pub const HEADER: usize = 1;

    pub const NUMBER: usize = 2;

    pub const HELD: usize = 3;

    pub const FOLLOWING: usize = 4;

    // The byte that holds a name's length.
    pub const NAME: usize = 432;

    // Types, in w0.
    pub const HEADER_TYPE: u32 = 2;

    pub const DATA_TYPE: u32 = 8;

    pub const LIST_TYPE: u32 = 16;

    // Kinds, in w127.
    pub const ROOT_KIND: u32 = 1;

    pub const DIRECTORY: u32 = 2;

    pub const FILE: u32 = 0xFFFFFFFD;

    // Links: to a path, to a directory, to a file.
    pub const SOFT_LINK: u32 = 3;

    pub const DIRECTORY_LINK: u32 = 4;

    pub const FILE_LINK: u32 = 0xFFFFFFFC;

    // The key of the root of a disk of so many blocks.
    pub fn root(blocks: u32) -> u32
        ensures { result ≡ blocks / 2 }
    {
        blocks / 2
    }

    // The first byte of word w of a block.
    pub fn byte(key: u32, w: usize) -> usize
        requires { w < block_words }
        ensures { result ≡ key * block_bytes + 4 * w }
    {
        key as usize * Block::BYTES + 4 * w
    }
}

// Word w of a block.
pub fn word_of(image: &[u8], key: u32, w: usize) -> u32
    requires { (w < block_words) × Holds image.now key }
    ensures { result ≡ word_of image.now key w }
{
    words::word(image, Block::byte(key, w))
}

// The sum of a block.
pub fn sum_of(image: &[u8], key: u32) -> u32
    requires { Holds image.now key }
    ensures { result ≡ sum_of image.now key }
{
    words::block_sum(image, key as usize * Block::BYTES)
}
