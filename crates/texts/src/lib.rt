// The text form of a table: what a line can be, and what reading one comes to. Document 02, E5.
#![tactic(auto)]

// The forms that a line has: the window, the start values, a task, an instruction by its operation, a lock.
#[derive(Clone, Copy)]
pub enum Form {
    WindowLine,
    StartLine,
    TaskLine,
    InstructionLine(u8),
    LockLine,
}

// The numerals of a line: how many there are, and the values of the first eight.
#[derive(Clone, Copy)]
pub struct Numerals {
    pub count: usize,
    pub values: [u64; NUMBERS],
}

// A line that was read: its form, and its numbers with zeros after them.
#[derive(Clone, Copy)]
pub struct ReadLine {
    pub form: Form,
    pub numbers: [u64; NUMBERS],
}

// The most numbers of a line: the eight values of `start`.
pub const NUMBERS: usize = 8;

// "Texts go up to 8,192 bytes."
pub const TEXT_ROOM: usize = 8192;
