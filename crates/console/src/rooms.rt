// The rooms that programs lend. The `ensures` gives only the length, so that no proof computes the list.
ghost use Rattle.std.specs.Prelude.{◌≡◌, length};

// How many bytes the largest image has.
pub const IMAGE: usize = 1802240;

// The same value throughout.
pub fn room<T: Copy, const N: usize>(value: T) -> [T; N]
    ensures { N ≡ length result }
{
    [value; N]
}
