// How many bytes each kind of answer has at least, info exactly: specs/Lengths.antt has the same names.
pub const ENTRY: usize = 16;

pub const GET_ENTRY: usize = 18;

pub const INFO: usize = 14;

pub const ALLOCATION: usize = 9;

pub const RESERVE: usize = 2;

pub const CLEAR: usize = 1;

// An answer that is shorter than it has to be, with the length that is needed.
#[derive(Clone, Copy, Debug, PartialEq, Eq)]
pub struct NotEnoughData(pub u8);

// Why an answer of which the length is given exactly is refused for its length.
#[derive(Clone, Copy, Debug, PartialEq, Eq)]
pub enum LengthError {
    // With the length that is needed.
    NotEnoughData(u8),
    TooLong,
}
