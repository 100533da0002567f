// The parts that a table in memory claims to hold, whatever its counts say: how many, each by its number, and how many
// records they make.
ghost use Rattle.std.specs.Prelude.{◌≡◌, ◌+◌, ◌≤◌, min, length, get_or};
ghost use Rattle.taskfile.specs.Tables.{end_instruction, no_task};
ghost use Rattle.writer.specs.Claims.{claimed_tasks, claimed_body, lock_array, no_lock, claimed_locks};
ghost use Rattle.writer.specs.Sites.{locks_at};
ghost use Rattle.writer_layout.specs.Code.ClaimedParts.{link_at};

use taskfile::limits::{MOST_INSTRUCTIONS, MOST_LOCKS, MOST_TASKS};
use taskfile::{Instruction, Table, TaskEntry};
use taskfile_records::records::{empty_task, end_instruction};
use writer::Lock;

// As many as the count says, and never more than one too many.
pub fn claimed_count(count: u8, most: u8) -> u8
    ensures { result ≡ min count (most + 1) }
{
    count.min(most.saturating_add(1))
}

// How many instructions a body claims.
pub fn body_count(e: TaskEntry) -> u8
    ensures { (result ≡ length (claimed_body e)) × (result ≤ 17) }
{
    claimed_count(e.length, MOST_INSTRUCTIONS)
}

// How many tasks a table claims.
pub fn task_count(t: Table) -> u8
    ensures { (result ≡ length (claimed_tasks t)) × (result ≤ 9) }
{
    claimed_count(t.tasks, MOST_TASKS)
}

// How many locks a table claims.
pub fn lock_count(t: Table) -> u8
    ensures { (result ≡ length (claimed_locks t)) × (result ≤ 9) }
{
    claimed_count(t.locks, MOST_LOCKS)
}

// The instruction at a position, or End past the array.
pub fn instruction_of(e: TaskEntry, p: u8) -> Instruction
    ensures { result ≡ get_or e.body p end_instruction }
{
    e.body.get(p as usize).copied().unwrap_or(end_instruction())
}

// The entry of a task by its number, or an empty one past the array.
pub fn entry_of(t: Table, i: u8) -> TaskEntry
    ensures { result ≡ get_or t.entries i no_task }
{
    t.entries.get(i as usize).copied().unwrap_or(empty_task())
}

// A lock by its number, or one of ceiling 0 and holding time 0 past the arrays.
pub fn lock_of(t: Table, l: u8) -> Lock
    ensures { result ≡ get_or (lock_array t) l no_lock }
{
    if MOST_LOCKS <= l {
        return Lock {
            ceiling: 0,
            holding: 0,
        };
    }
    Lock {
        ceiling: t.ceilings[l as usize],
        holding: t.holdings[l as usize],
    }
}

// The link to index r, where part p of `count` comes to stand: zero where there is no such part.
pub fn link_at(r: u8, p: u8, count: u8) -> u8
    ensures { result ≡ link_at r p count }
{
    if p < count { r } else { 0 }
}

// How many records the tasks make with their bodies: those between the header and the first lock.
pub fn record_total(t: Table) -> u8
    ensures { (1 + result ≡ locks_at t) × (result ≤ 162) }
{
    let mut total: u8 = 0;
    for i in 0..task_count(t) {
        total += 1 + body_count(entry_of(t, i));
    }
    total
}
