// The records of a task file: bytes, wide fields and instructions, and what fills a table's arrays up.
ghost use Rattle.std.specs.Prelude.{◌≡◌, ◌≤◌};
ghost use Rattle.taskfile.specs.Records.{byte_at, wide_at, instruction_at};
ghost use Rattle.taskfile.specs.Tables.{end_instruction, no_task};

use taskfile::limits::{INSTRUCTIONS, RECORD};
use taskfile::{Instruction, TaskEntry, offsets, operations};

// Byte k of record r, or 0 past the file's end.
pub fn byte_at(file: &[u8], r: u8, k: u8) -> u8
    ensures { result ≡ byte_at file.now r k }
{
    let at = RECORD * (r as usize) + (k as usize);
    if at < file.len() { file[at] } else { 0 }
}

// The unsigned 32-bit field that starts at byte k of record r, low byte first. One test serves all four bytes of a
// field that the file has whole.
pub fn wide_at(file: &[u8], r: u8, k: u8) -> u32
    requires { k ≤ 12 }
    ensures { result ≡ wide_at file.now r k }
{
    let at = RECORD * (r as usize) + (k as usize);
    if at + 3 < file.len() {
        return u32::from_le_bytes([file[at], file[at + 1], file[at + 2], file[at + 3]]);
    }
    u32::from_le_bytes([
        byte_at(file, r, k),
        byte_at(file, r, k + 1),
        byte_at(file, r, k + 2),
        byte_at(file, r, k + 3),
    ])
}

// The instruction of record r. One test serves all four bytes of one that the file has whole.
pub fn instruction_at(file: &[u8], r: u8) -> Instruction
    ensures { result ≡ instruction_at file.now r }
{
    let at = RECORD * (r as usize);
    if at + RECORD <= file.len() {
        return Instruction {
            operation: file[at + (offsets::OPERATION as usize)],
            a: file[at + (offsets::FIELD_A as usize)],
            b: file[at + (offsets::FIELD_B as usize)],
            c: file[at + (offsets::FIELD_C as usize)],
        };
    }
    Instruction {
        operation: byte_at(file, r, offsets::OPERATION),
        a: byte_at(file, r, offsets::FIELD_A),
        b: byte_at(file, r, offsets::FIELD_B),
        c: byte_at(file, r, offsets::FIELD_C),
    }
}

// The instruction End, which fills a body up.
pub fn end_instruction() -> Instruction
    ensures { result ≡ end_instruction }
{
    Instruction {
        operation: operations::END,
        a: 0,
        b: 0,
        c: 0,
    }
}

// A task with no body, which fills a table's entries up.
pub fn empty_task() -> TaskEntry
    ensures { result ≡ no_task }
{
    TaskEntry {
        execution: 0,
        period: 0,
        arrival: 0,
        length: 0,
        body: [end_instruction(); INSTRUCTIONS],
    }
}
