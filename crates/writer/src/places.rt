// The places of a table's parts in memory, as the definitions of `Memory` have them.

// Where a table's parts stand in memory, by byte; bytes 14 and 15 are unused.
pub const WINDOW: usize = 0;

pub const STORE: usize = 4;

pub const TASKS: usize = 12;

pub const LOCKS: usize = 13;

pub const CEILINGS: usize = 16;

pub const ENTRIES: usize = 24;

pub const HOLDINGS: usize = 664;

// The bytes of a task's entry, and where its parts stand in it; bytes 13 to 15 are unused.
pub const ENTRY: usize = 80;

pub const EXECUTION: usize = 0;

pub const PERIOD: usize = 4;

pub const ARRIVAL: usize = 8;

pub const LENGTH: usize = 12;

pub const BODY: usize = 16;

// The bytes of a holding time.
pub const HOLDING: usize = 4;

// The bytes of an instruction, and where its parts stand in it.
pub const INSTRUCTION: usize = 4;

pub const OPERATION: usize = 0;

pub const FIELD_A: usize = 1;

pub const FIELD_B: usize = 2;

pub const FIELD_C: usize = 3;
