// The table in memory and the writer: what their entries answer, and where a table's parts stand in memory.
// Document 02, E2.
#![tactic(auto)]

pub mod places;

// What both entries answer: number and place, and how many bytes were written.
#[derive(Clone, Copy)]
pub struct WriteAnswer {
    pub number: u8,
    pub place: u32,
    pub length: u32,
}

// What a table says of one lock: its ceiling and its longest holding time.
#[derive(Clone, Copy)]
pub struct Lock {
    pub ceiling: u8,
    pub holding: u32,
}

// "a buffer of at least 2,320 bytes": 1 + 8 + 8 × 16 + 8 records.
pub const FILE_ROOM: usize = 2320;

// The bytes that any table's layout fits in, counts that are too high among them: 1 + 9 + 9 × 17 + 9 records.
pub const LAYOUT_ROOM: usize = 2752;

// The bytes of a table in memory.
pub const TABLE_ROOM: usize = 696;
