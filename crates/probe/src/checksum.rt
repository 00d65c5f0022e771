// The checksum of an area.

// The largest prime below 2^32.
const MODULUS: u64 = 4294967291;

// The checksum h, after one more byte.
fn step(h: u32, byte: u8) -> u32 {
    ((257 * h as u64 + byte as u64 + 1) % MODULUS) as u32
}

// The checksum h, after more bytes.
fn more(h: u32, bytes: &[u8]) -> u32 {
    bytes.iter().fold(h, |h, byte| step(h, *byte))
}

// The checksum of bytes.
pub fn of_bytes(bytes: &[u8]) -> u32 {
    more(0, bytes)
}

// The checksum of the bytes of numbers, the highest of each first.
pub fn of_numbers(numbers: &[u32]) -> u32 {
    numbers
        .iter()
        .fold(0, |h, number| more(h, &number.to_be_bytes()))
}
