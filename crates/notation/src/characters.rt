// Characters by their bytes.

pub const SPACE: u8 = 32;

// A line's end.
pub const NEWLINE: u8 = 10;

// The digit zero.
pub const ZERO: u8 = 48;
