// The operations by number. Document 01, "Instructions".
pub const END: u8 = 0;

pub const LOAD: u8 = 1;

pub const STORE: u8 = 2;

pub const SET: u8 = 3;

pub const ADD: u8 = 4;

pub const SUBTRACT: u8 = 5;

pub const SKIP_LESS: u8 = 6;

pub const SKIP_EQUAL: u8 = 7;

pub const PICK: u8 = 8;

pub const ACQUIRE: u8 = 9;

pub const RELEASE: u8 = 10;

pub const ASSERT: u8 = 11;
