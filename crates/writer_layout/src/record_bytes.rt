// The bytes of single records: a header, a task's, a lock's, an instruction's.
ghost use Rattle.std.specs.Prelude.{[], ◌∷◌, replicate};
ghost use Rattle.writer.specs.Layout.{instruction_record, task_record, lock_record, header_record};
ghost use Rattle.notation_buffers.specs.Code.Pages.{Puts};

use crate::wides::put_wide;
use notation_buffers::pages::Page;
use taskfile::limits::VARIABLES;
use taskfile::{Instruction, Kind, Table, TaskEntry, offsets};
use writer::Lock;

// The unused bytes at the end of an instruction's record and of a lock's.
const INSTRUCTION_UNUSED: usize = offsets::INSTRUCTION_UNUSED_BYTES as usize;

const LOCK_UNUSED: usize = offsets::LOCK_UNUSED_LAST_BYTES as usize;

// Writes three bytes.
pub fn put_three(page: &mut Page, first: u8, second: u8, third: u8)
    ensures { Puts page.old (first ∷ second ∷ third ∷ []) page.new }
{
    page.put_word(&[first, second, third]);
}

// Writes n zeros.
pub fn put_zeros(page: &mut Page, n: u8)
    ensures { Puts page.old (replicate n 0) page.new }
{
    let zeros = [0u8; 255];
    page.put_word(&zeros[..usize::from(n)]);
}

// Writes the initial values of the shared variables.
pub fn put_store(page: &mut Page, store: [u8; VARIABLES])
    ensures { Puts page.old store page.new }
{
    page.put_word(&store);
}

// Writes the record of an instruction whose next record is at index `next`.
pub fn put_instruction(page: &mut Page, i: Instruction, next: u8)
    ensures { Puts page.old (instruction_record i next) page.new }
{
    let kind = Kind::InstructionRecord as u8;
    page.put_letters(&[kind, next, i.operation, i.a, i.b, i.c]);
    page.put_word(&[0; INSTRUCTION_UNUSED]);
}

// Writes the record of a task whose next record is at index `next` and whose first instruction is at `first`.
pub fn put_task_record(page: &mut Page, e: TaskEntry, next: u8, first: u8)
    ensures { Puts page.old (task_record e next first) page.new }
{
    let kind = Kind::TaskRecord as u8;
    page.put_word(&[kind, next, first, 0]);
    put_wide(page, e.execution);
    put_wide(page, e.period);
    put_wide(page, e.arrival);
}

// Writes the record of a lock whose next record is at index `next`.
pub fn put_lock(page: &mut Page, lock: Lock, next: u8)
    ensures { Puts page.old (lock_record lock next) page.new }
{
    let kind = Kind::LockRecord as u8;
    page.put_word(&[kind, next, lock.ceiling, 0]);
    put_wide(page, lock.holding);
    page.put_word(&[0; LOCK_UNUSED]);
}

// Writes the header of a table whose first task and first lock are at these indices.
pub fn put_header(page: &mut Page, t: Table, task: u8, lock: u8)
    ensures { Puts page.old (header_record t task lock) page.new }
{
    let kind = Kind::Header as u8;
    page.put_word(&[kind, 0, task, lock]);
    put_wide(page, t.window);
    page.put_word(&t.store);
}
