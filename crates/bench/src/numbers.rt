// Numbers in the texts of arguments.
ghost use Rattle.std.specs.Prelude.{◌≤◌};

// What the digits make, the highest first: at least one and at most so many, and below 2^32.
fn number(digits: &[u8], radix: u32, most: usize) -> Option<u32>
    requires { (2 ≤ radix) × (radix ≤ 16) }
{
    if digits.is_empty() || digits.len() > most {
        return None;
    }
    digits.iter().try_fold(0u32, |n, digit| {
        n.checked_mul(radix)?
            .checked_add(char::from(*digit).to_digit(radix)?)
    })
}

// The number that at most ten decimal digits make.
pub fn decimal(digits: &[u8]) -> Option<u32> {
    number(digits, 10, 10)
}

// The number that at most eight hex digits make.
pub fn hex(digits: &[u8]) -> Option<u32> {
    number(digits, 16, 8)
}
