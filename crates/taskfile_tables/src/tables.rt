// The table that a file's chains spell, read by following indices.
ghost use Rattle.std.specs.Prelude.{◌≡◌, ◌≤◌, length};
ghost use Rattle.taskfile.specs.Code.Reading.{linked_task, linked_chains};
ghost use Rattle.taskfile.specs.Code.ReadingParts.{chain_at, body_at, entries_at, locks_read};
ghost use Rattle.taskfile.specs.Tables.{entry_at, table_at};
ghost use Rattle.taskfile.specs.Chains.{most_instructions};

use notation::bytes::bytes_at;
use taskfile::limits::{INSTRUCTIONS, LOCKS, MOST_INSTRUCTIONS, MOST_LOCKS, MOST_TASKS, TASKS};
use taskfile::{Filled, Instruction, Locks, Table, TaskEntry, offsets};
use taskfile_chains::chains::{index_at, next_at};
use taskfile_records::records::{byte_at, empty_task, end_instruction, instruction_at, wide_at};

// Where the initial values of the shared variables stand in the header.
const STORE: usize = 8;

// The records of the chain from the record `first` on, at most `most`.
pub fn chain_at(file: &[u8], first: u8, most: u8) -> Filled<u8, INSTRUCTIONS>
    requires { most ≤ most_instructions }
    ensures { result ≡ chain_at file.now first most }
{
    let mut items = [0; INSTRUCTIONS];
    let mut count = 0;
    let mut index = first;
    while index != 0 && count < most {
        items[count as usize] = index;
        index = next_at(file, index);
        count += 1;
    }
    Filled { count, items }
}

// The body whose first instruction is at `first`, at most 16 instructions; End fills the array up.
pub fn body_at(file: &[u8], first: u8) -> Filled<Instruction, INSTRUCTIONS>
    ensures { result ≡ body_at file.now first }
{
    let chain = chain_at(file, first, MOST_INSTRUCTIONS);
    let count = chain.count;
    let mut items = [end_instruction(); INSTRUCTIONS];
    for n in 0..count as usize {
        items[n] = instruction_at(file, chain.items[n]);
    }
    Filled { count, items }
}

// What the table says of the task whose record is r.
pub fn entry_at(file: &[u8], r: u8) -> TaskEntry
    ensures { result ≡ entry_at file.now (linked_task file.now r) }
{
    let Filled {
        count: length,
        items: body,
    } = body_at(file, index_at(file, r, offsets::FIRST_INSTRUCTION));
    TaskEntry {
        execution: wide_at(file, r, offsets::EXECUTION),
        period: wide_at(file, r, offsets::PERIOD),
        arrival: wide_at(file, r, offsets::ARRIVAL),
        length,
        body,
    }
}

// The entries of the tasks from the record `first` on, at most 8.
pub fn entries_at(file: &[u8], first: u8) -> Filled<TaskEntry, TASKS>
    ensures { result ≡ entries_at file.now first }
{
    let chain = chain_at(file, first, MOST_TASKS);
    let count = chain.count;
    let mut items = [empty_task(); TASKS];
    for n in 0..count as usize {
        items[n] = entry_at(file, chain.items[n]);
    }
    Filled { count, items }
}

// The ceilings and the longest holding times of the locks from the record `first` on, at most 8.
pub fn locks_at(file: &[u8], first: u8) -> Locks
    ensures { result ≡ locks_read file.now first }
{
    let chain = chain_at(file, first, MOST_LOCKS);
    let count = chain.count;
    let mut ceilings = [0; LOCKS];
    let mut holdings = [0; LOCKS];
    for n in 0..count as usize {
        ceilings[n] = byte_at(file, chain.items[n], offsets::CEILING);
        holdings[n] = wide_at(file, chain.items[n], offsets::HOLDING);
    }
    Locks {
        count,
        ceilings,
        holdings,
    }
}

// The table that the chains of a file spell.
pub fn table_at(file: &[u8]) -> Table
    requires { 16 ≤ length file.now }
    ensures { result ≡ table_at file.now (linked_chains file.now) }
{
    let Filled {
        count: tasks,
        items: entries,
    } = entries_at(file, index_at(file, 0, offsets::FIRST_TASK));
    let Locks {
        count: locks,
        ceilings,
        holdings,
    } = locks_at(file, index_at(file, 0, offsets::FIRST_LOCK));
    Table {
        window: wide_at(file, 0, offsets::WINDOW),
        store: bytes_at(file, STORE),
        tasks,
        entries,
        locks,
        ceilings,
        holdings,
    }
}
