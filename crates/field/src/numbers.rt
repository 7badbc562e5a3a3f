// The numbers of refusals that functions give by number (docs/SCOPE.md, "Numbers handed back"); specs/Handed.antt has the table.
pub const TOO_SHORT: u32 = 1;

pub const UNKNOWN_TYPE: u32 = 2;

pub const INVALID_CHANNEL: u32 = 3;

pub const NO_ROOM: u32 = 4;

pub const BAD_CAPTURE: u32 = 5;

pub const BAD_LINE: u32 = 6;

pub const NO_SUCH_RECORD: u32 = 7;

pub const TOO_LONG: u32 = 8;

pub const NO_RESERVATION: u32 = 9;

pub const WRONG_INDEX: u32 = 10;

pub const UNNAMED_VERSION: u32 = 11;

pub const NO_BYTES: u32 = 13;

pub const UNRESERVED: u32 = 14;

pub const NEXT_DIFFERS: u32 = 15;

pub const NO_SUCH_PART: u32 = 16;

// No number of the table: the bytes are no question of the kind that was asked.
pub const NO_QUESTION: u32 = 255;
