// The task file: what a table is, and what its reader yields. Document 01, "The task file".
#![tactic(auto)]

pub mod limits;
pub mod offsets;
pub mod operations;
pub mod refusals;

use crate::limits::{INSTRUCTIONS, LOCKS, TASKS, VARIABLES};

// A task's number, from 0 in chain order. It is also the task's base priority.
#[repr(C)]
#[derive(Clone, Copy)]
pub struct Task(pub u8);

// One instruction: its operation and its fields a, b and c.
#[derive(Clone, Copy)]
pub struct Instruction {
    pub operation: u8,
    pub a: u8,
    pub b: u8,
    pub c: u8,
}

// What a table says of one task: execution time C, period P, first arrival A, and its body, the first
// `length` of the sixteen instructions.
#[derive(Clone, Copy)]
pub struct TaskEntry {
    pub execution: u32,
    pub period: u32,
    pub arrival: u32,
    pub length: u8,
    pub body: [Instruction; INSTRUCTIONS],
}

// A table: the window W, the initial store, the first `tasks` of the eight entries, and of the first `locks` of
// the eight locks the ceilings and the longest holding times.
#[derive(Clone, Copy)]
pub struct Table {
    pub window: u32,
    pub store: [u8; VARIABLES],
    pub tasks: u8,
    pub entries: [TaskEntry; TASKS],
    pub locks: u8,
    pub ceilings: [u8; LOCKS],
    pub holdings: [u32; LOCKS],
}

// The kind of a record, by its number: "Byte 0 is the kind".
#[derive(Clone, Copy)]
pub enum Kind {
    Header = 1,
    TaskRecord = 2,
    LockRecord = 3,
    InstructionRecord = 4,
}

// A field of an instruction.
#[derive(Clone, Copy)]
pub enum Field {
    A,
    B,
    C,
}

// A site of a table: its header, a task, the instruction at a position of a task's body, or a lock.
#[derive(Clone, Copy)]
pub enum Site {
    AtHeader,
    AtTask(Task),
    AtInstruction(Task, u8),
    AtLock(u8),
}

// How many items there are, and the array that holds them first.
#[derive(Clone, Copy)]
pub struct Filled<T, const N: usize> {
    pub count: u8,
    pub items: [T; N],
}

// The locks' ceilings, how many there are, and the array that holds them.
#[derive(Clone, Copy)]
pub struct Ceilings {
    pub ceilings: [u8; LOCKS],
    pub count: u8,
}

// The locks' ceilings and longest holding times, how many there are, and the arrays that hold them.
#[derive(Clone, Copy)]
pub struct Locks {
    pub count: u8,
    pub ceilings: [u8; LOCKS],
    pub holdings: [u32; LOCKS],
}
