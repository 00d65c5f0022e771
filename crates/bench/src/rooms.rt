// The rooms that the verbs are lent.

// Memory for a program, and as much for the work area.
pub const MEMORY: usize = 1048576;

// Where a program is loaded: memory, the records of its hunks, and the work area.
#[derive(Drop)]
pub struct Board<'a> {
    pub memory: &'a mut [u8],
    pub table: &'a mut [u32],
    pub work: &'a mut [u8],
}
