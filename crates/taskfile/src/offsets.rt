// Where the fields of a record stand, by byte. Document 01, "The task file".

// In every record:
pub const KIND: u8 = 0;

pub const NEXT: u8 = 1;

// In the header:
pub const FIRST_TASK: u8 = 2;

pub const FIRST_LOCK: u8 = 3;

pub const WINDOW: u8 = 4;

// In a task's record, where one byte is unused:
pub const FIRST_INSTRUCTION: u8 = 2;

pub const TASK_UNUSED: u8 = 3;

pub const EXECUTION: u8 = 4;

pub const PERIOD: u8 = 8;

pub const ARRIVAL: u8 = 12;

// In a lock's record, where one byte and those from another on are unused:
pub const CEILING: u8 = 2;

pub const LOCK_UNUSED: u8 = 3;

pub const HOLDING: u8 = 4;

pub const LOCK_UNUSED_LAST: u8 = 8;

pub const LOCK_UNUSED_LAST_BYTES: u8 = 8;

// In an instruction's record, where the bytes from one on are unused:
pub const OPERATION: u8 = 2;

pub const FIELD_A: u8 = 3;

pub const FIELD_B: u8 = 4;

pub const FIELD_C: u8 = 5;

pub const INSTRUCTION_UNUSED: u8 = 6;

pub const INSTRUCTION_UNUSED_BYTES: u8 = 10;
