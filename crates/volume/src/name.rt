// Names: folding, slots, and what a name may be.
ghost use Rattle.std.specs.Prelude.{◌≡◌, ◌<◌, ◌≤◌, eqb, length};
ghost use Rattle.volume.specs.Blocks.{Holds};
ghost use Rattle.volume.specs.Names.{fold_plain, fold_international, fold_of, slot_of, same, allowed, longest};
ghost use Rattle.volume.specs.Names.{name_length, name_of, name_good};

use crate::block::Block;
use crate::disk::Disk;

pub const LONGEST: usize = 30;

// a-z become A-Z.
#[tactic(auto, using(crate::proofs::Names::capital))]
fn fold_plain(b: u8) -> u8
    ensures { result ≡ fold_plain b }
{
    b.to_ascii_uppercase()
}

// Each byte as an international disk folds it: a-z and E0 to FE, but for F7, are 20 hex lower, and the others stay.
const FOLDED: [u8; 256] = *b"\
\x00\x01\x02\x03\x04\x05\x06\x07\x08\x09\x0A\x0B\x0C\x0D\x0E\x0F\
\x10\x11\x12\x13\x14\x15\x16\x17\x18\x19\x1A\x1B\x1C\x1D\x1E\x1F\
\x20\x21\x22\x23\x24\x25\x26\x27\x28\x29\x2A\x2B\x2C\x2D\x2E\x2F\
\x30\x31\x32\x33\x34\x35\x36\x37\x38\x39\x3A\x3B\x3C\x3D\x3E\x3F\
\x40\x41\x42\x43\x44\x45\x46\x47\x48\x49\x4A\x4B\x4C\x4D\x4E\x4F\
\x50\x51\x52\x53\x54\x55\x56\x57\x58\x59\x5A\x5B\x5C\x5D\x5E\x5F\
\x60\x41\x42\x43\x44\x45\x46\x47\x48\x49\x4A\x4B\x4C\x4D\x4E\x4F\
\x50\x51\x52\x53\x54\x55\x56\x57\x58\x59\x5A\x7B\x7C\x7D\x7E\x7F\
\x80\x81\x82\x83\x84\x85\x86\x87\x88\x89\x8A\x8B\x8C\x8D\x8E\x8F\
\x90\x91\x92\x93\x94\x95\x96\x97\x98\x99\x9A\x9B\x9C\x9D\x9E\x9F\
\xA0\xA1\xA2\xA3\xA4\xA5\xA6\xA7\xA8\xA9\xAA\xAB\xAC\xAD\xAE\xAF\
\xB0\xB1\xB2\xB3\xB4\xB5\xB6\xB7\xB8\xB9\xBA\xBB\xBC\xBD\xBE\xBF\
\xC0\xC1\xC2\xC3\xC4\xC5\xC6\xC7\xC8\xC9\xCA\xCB\xCC\xCD\xCE\xCF\
\xD0\xD1\xD2\xD3\xD4\xD5\xD6\xD7\xD8\xD9\xDA\xDB\xDC\xDD\xDE\xDF\
\xC0\xC1\xC2\xC3\xC4\xC5\xC6\xC7\xC8\xC9\xCA\xCB\xCC\xCD\xCE\xCF\
\xD0\xD1\xD2\xD3\xD4\xD5\xD6\xF7\xD8\xD9\xDA\xDB\xDC\xDD\xDE\xFF";

fn fold_international(b: u8) -> u8
    ensures { result ≡ fold_international b }
{
    FOLDED[b as usize]
}

// A byte folded by the rule of its disk.
fn fold_by_rule(disk: Disk, b: u8) -> u8
    ensures { result ≡ fold_of disk b }
{
    if disk.folds_accents() {
        return fold_international(b);
    }
    fold_plain(b)
}

// A byte folded as its disk folds it. Bytes below 80 hex fold alike on every disk, and do without the table, which the
// compiler copies to the stack whenever it is looked at. `alike` calls `fold_by_rule` too: with one caller alone the
// compiler would inline it here, and then not inline `fold`.
pub fn fold(disk: Disk, b: u8) -> u8
    ensures { result ≡ fold_of disk b }
{
    if b < 0x80 {
        return fold_plain(b);
    }
    fold_by_rule(disk, b)
}

// The slot of a name.
pub fn slot(disk: Disk, name: &[u8]) -> u32
    requires { length name.now ≤ 255 }
    ensures { result ≡ slot_of disk name.now }
{
    let mut h = name.len();
    for &b in name {
        h = (13 * h + usize::from(fold(disk, b))) % 2048;
    }
    (h % Block::SLOTS) as u32
}

// Whether a name has no '/' and no ':'.
#[tactic(auto, using(crate::proofs::Names::allowing))]
pub fn is_allowed(name: &[u8]) -> bool
    ensures { result ≡ allowed name.now }
{
    for &b in name {
        if b == b'/' || b == b':' {
            return false;
        }
    }
    true
}

// Whether two bytes are equal when folded. Folding changes a byte by 20 hex or not at all, so most are compared without
// it.
fn alike(disk: Disk, x: u8, y: u8) -> bool
    ensures { result ≡ eqb (fold_of disk x) (fold_of disk y) }
{
    if x == y {
        return true;
    }
    if x % 32 != y % 32 {
        return false;
    }
    fold_by_rule(disk, x) == fold_by_rule(disk, y)
}

// Whether two names are equal when folded.
pub fn same(disk: Disk, xs: &[u8], ys: &[u8]) -> bool
    ensures { result ≡ same disk xs.now ys.now }
{
    if xs.len() != ys.len() {
        return false;
    }
    for (&x, &y) in xs.iter().zip(ys) {
        if !alike(disk, x, y) {
            return false;
        }
    }
    true
}

// The length byte of a block's name.
pub fn name_length(image: &[u8], key: u32) -> usize
    requires { Holds image.now key }
    ensures { (result ≡ name_length image.now key) × (result < 256) }
{
    usize::from(image[key as usize * Block::BYTES + Block::NAME])
}

// A block's name.
pub fn name_of(image: &[u8], key: u32) -> &[u8]
    requires { Holds image.now key × (name_length image.now key ≤ longest) }
    ensures { result.now ≡ name_of image.now key }
{
    let from = key as usize * Block::BYTES + (Block::NAME + 1);
    &image[from..from + name_length(image, key)]
}

// Whether a block has a name that is allowed.
pub fn name_good(image: &[u8], key: u32) -> bool
    requires { Holds image.now key }
    ensures { result ≡ name_good image.now key }
{
    let n = name_length(image, key);
    if n < 1 || LONGEST < n {
        return false;
    }
    is_allowed(name_of(image, key))
}

// The slot of a block's name.
pub fn slot_of(disk: Disk, image: &[u8], key: u32) -> u32
    requires { Holds image.now key × (name_length image.now key ≤ longest) }
    ensures { result ≡ slot_of disk (name_of image.now key) }
{
    slot(disk, name_of(image, key))
}

// Whether a block has a name, folded.
pub fn has_name(disk: Disk, image: &[u8], key: u32, name: &[u8]) -> bool
    requires { Holds image.now key × (name_length image.now key ≤ longest) }
    ensures { result ≡ same disk (name_of image.now key) name.now }
{
    same(disk, name_of(image, key), name)
}

// Whether two blocks have names that are equal when folded.
pub fn same_names(disk: Disk, image: &[u8], a: u32, b: u32) -> bool
    requires { (Holds image.now a × Holds image.now b)
        × ((name_length image.now a ≤ longest) × (name_length image.now b ≤ longest)) }
    ensures { result ≡ same disk (name_of image.now a) (name_of image.now b) }
{
    same(disk, name_of(image, a), name_of(image, b))
}
