// Big-endian 32-bit words of a slice of bytes: read, store, add, and the sum of a block's words; and a copy of items.
#![tactic(auto)]

ghost use Rattle.std.specs.Prelude.{◌≡◌, ◌+◌, ◌*◌, ◌/◌, ◌%◌, ◌^◌, ◌<◌, ◌≤◌, min, ◌++◌, length, drop, replicate};
ghost use Rattle.words.specs.Word.{four, word_at, set_word, add_at};
ghost use Rattle.words.specs.Sum.{block_words, sum_at};
ghost use Rattle.words.specs.Lanes.{low_four, low_at, odd_bytes, most_odd, odd_at, eight};

// How many words a block has.
pub const BLOCK_WORDS: usize = 128;

// The number that four bytes make, the first the highest.
pub fn join(a: u8, b: u8, c: u8, d: u8) -> u32
    ensures { result ≡ four a b c d }
{
    u32::from_be_bytes([a, b, c, d])
}

// The word whose first byte stands at `at`.
pub fn word(bytes: &[u8], at: usize) -> u32
    requires { at + 4 ≤ length bytes.now }
    ensures { result ≡ word_at bytes.now at }
{
    join(bytes[at], bytes[at + 1], bytes[at + 2], bytes[at + 3])
}

// Stores w at `at`.
pub fn put_word(bytes: &mut [u8], at: usize, w: u32)
    requires { at + 4 ≤ length bytes.old }
    ensures { bytes.new ≡ set_word bytes.old at w }
{
    let [a, b, c, d] = w.to_be_bytes();
    bytes[at] = a;
    bytes[at + 1] = b;
    bytes[at + 2] = c;
    bytes[at + 3] = d;
}

// Adds d to the word at `at`, modulo 2^32.
pub fn add_at(bytes: &mut [u8], at: usize, d: u32)
    requires { at + 4 ≤ length bytes.old }
    ensures { bytes.new ≡ add_at bytes.old at d }
{
    let w = word(bytes, at);
    put_word(bytes, at, w.wrapping_add(d));
}

// ---- the sum of a block
//
// Words are added up as they are loaded, with their first byte the lowest. Beside that their odd bytes are added up,
// those at places 1 and 3 counted from 0, in two lanes of 16 bits: the halves of a number. At the end the two sums give
// the one that is wanted. That takes fewer steps than turning each word round. What the compiler makes of it depends
// on the form: docs/PERFORMANCE.md has what other forms cost.

// How many turns of eight words a block has.
const BLOCK_TURNS: usize = BLOCK_WORDS / 8;

// What a turn adds to the two sums: `low`, of words, and `odd`, of their odd bytes.
#[derive(Drop)]
struct Turn {
    low: u64,
    odd: u32,
}

// The number that four bytes make, the first the lowest.
fn join_low(a: u8, b: u8, c: u8, d: u8) -> u32
    ensures { result ≡ low_four a b c d }
{
    u32::from_le_bytes([a, b, c, d])
}

// The four bytes at `at` as a number, the first the lowest. The second promise follows from the first; it is here for
// the proof of `eight_words`.
fn low_word(bytes: &[u8], at: usize) -> u32
    requires { at + 4 ≤ length bytes.now }
    ensures value { result ≡ low_at bytes.now at }
    ensures odd { odd_bytes result ≡ odd_at bytes.now at }
{
    join_low(bytes[at], bytes[at + 1], bytes[at + 2], bytes[at + 3])
}

// The odd bytes of such a number: the second in the lower lane, the fourth in the upper.
fn odd_bytes(w: u32) -> u32
    ensures { (result ≡ odd_bytes w) × (result ≤ most_odd) }
{
    w / 256 % 256 + 65536 * (w / 16777216)
}

// A turn: eight words, 64 bytes apart, the first at `at`. They lie apart so that in the next turn each of the eight
// goes on to the word beside it: of four turns the compiler makes eight loads of 16 bytes. If they lay side by side, it
// would load and shuffle words one by one, at more than twice the instructions.
fn eight_words(bytes: &[u8], at: usize) -> Turn
    requires { at + 448 + 4 ≤ length bytes.now }
    ensures low { result.low ≡ eight (low_at bytes.now) at }
    ensures odd { result.odd ≡ eight (odd_at bytes.now) at }
    ensures small { (result.low < 8 * 2 ^ 32) × (result.odd ≤ 8 * most_odd) }
{
    let a = low_word(bytes, at);
    let b = low_word(bytes, at + 64);
    let c = low_word(bytes, at + 128);
    let d = low_word(bytes, at + 192);
    let e = low_word(bytes, at + 256);
    let f = low_word(bytes, at + 320);
    let g = low_word(bytes, at + 384);
    let h = low_word(bytes, at + 448);
    let low = a as u64 + b as u64 + c as u64 + d as u64 + e as u64 + f as u64 + g as u64 + h as u64;
    let odd = odd_bytes(a)
        + odd_bytes(b)
        + odd_bytes(c)
        + odd_bytes(d)
        + odd_bytes(e)
        + odd_bytes(f)
        + odd_bytes(g)
        + odd_bytes(h);
    Turn { low: low, odd: odd }
}

// The sums of the even bytes of words, the first and the third, in two lanes: from the sum of the words, modulo 2^32,
// and the sums of their odd bytes.
fn even_bytes(low: u32, odd: u32) -> u32
    ensures { (result + 256 * odd) % 2 ^ 32 ≡ low }
{
    // 2^40 keeps the difference above 0, and is a multiple of 2^32
    ((low as u64 + 1099511627776 - 256 * odd as u64) % 4294967296) as u32
}

// The sum of words with their first byte the highest, modulo 2^32, from the sums of their even and of their odd bytes.
fn high_first(even: u32, odd: u32) -> u32
    ensures { result ≡ four (even % 65536) (odd % 65536) (even / 65536) (odd / 65536) % 2 ^ 32 }
{
    let high = (even % 65536) as u64 * 16777216 + (odd % 65536) as u64 * 65536;
    ((high + (even / 65536) as u64 * 256 + (odd / 65536) as u64) % 4294967296) as u32
}

// The sum, modulo 2^32, of the words of the block whose first byte stands at `at`.
pub fn block_sum(bytes: &[u8], at: usize) -> u32
    requires { at + 4 * block_words ≤ length bytes.now }
    ensures { result ≡ sum_at bytes.now at }
{
    let mut low: u64 = 0;
    let mut odd: u32 = 0;
    for i in 0..BLOCK_TURNS {
        let turn = eight_words(bytes, at + 4 * i);
        low += turn.low;
        odd += turn.odd;
    }
    // `low` has 64 bits so that no addition wraps, and 32 of them matter. The compiler adds up no more than these if it
    // sees that by a cast to 32 bits: this one, or the one at the end of `even_bytes`. So the casts must stay. With
    // neither, the sum takes three times the instructions on x86-64.
    let even = even_bytes((low % 4294967296) as u32, odd);
    high_first(even, odd)
}

// Copies items over those of a slice of the same length. A loop, and not std's `copy_from_slice`, which needs memmove:
// the header names what the archive needs, and memmove is not among it.
pub fn copy<T: Copy>(from: &[T], to: &mut [T])
    requires { length from.now ≡ length to.old }
    ensures { to.new ≡ from.now }
{
    for i in 0..from.len() {
        to[i] = from[i];
    }
}
