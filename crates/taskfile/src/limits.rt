// How large a file and a table may be. A limit that code counts up to has a second name, `MOST_`, as a byte.

// The bytes of a record.
pub const RECORD: usize = 16;

// The most records of a file.
pub const RECORDS: usize = 256;

// The most bytes of a file.
pub const BYTES: usize = 4096;

// "1 to 8 tasks"
pub const TASKS: usize = 8;

pub const MOST_TASKS: u8 = TASKS as u8;

// "0 to 8 locks"
pub const LOCKS: usize = 8;

pub const MOST_LOCKS: u8 = LOCKS as u8;

// "1 to 16 instructions in a body"
pub const INSTRUCTIONS: usize = 16;

pub const MOST_INSTRUCTIONS: u8 = INSTRUCTIONS as u8;

// "byte 2 ceiling, 0 to 7"
pub const HIGHEST_CEILING: u8 = 7;

// "shared variables 0 to 7"
pub const VARIABLES: usize = 8;

pub const MOST_VARIABLES: u8 = VARIABLES as u8;

// "A job has registers 0 to 3"
pub const REGISTERS: usize = 4;

pub const MOST_REGISTERS: u8 = REGISTERS as u8;

// The operations 0 to 11.
pub const OPERATIONS: usize = 12;

pub const MOST_OPERATIONS: u8 = OPERATIONS as u8;

// "at most 32 jobs"
pub const JOBS: usize = 32;

pub const MOST_JOBS: u8 = JOBS as u8;

// The same, to hold a count of jobs against.
pub const MOST_TOTAL: u64 = JOBS as u64;
