// The table that the lines of a text spell: a table with one line's part added. Document 02, E5.
ghost use Rattle.std.specs.Prelude.{◌≡◌, ◌-◌, ◌≤◌, [], get_or, set};
ghost use Rattle.notation.specs.Lists.{bytes_at};
ghost use Rattle.taskfile.specs.Tables.{no_task};
ghost use Rattle.texts.specs.declared.Form.TheVariants.{StartLine, TaskLine, InstructionLine, LockLine};
ghost use Rattle.texts.specs.Code.AddedLines.{counted, add_task};
ghost use Rattle.texts.specs.Code.AddedLines.{longer_task, add_instruction, add_lock, add_part};
ghost use Rattle.texts.specs.TextTables.{instruction_with, task_with, lock_with};
ghost use Rattle.texts_tables.specs.Code.PartFields.{PartFits};
ghost use Rattle.taskfile.specs.Chains.{most_instructions};

use taskfile::limits::{MOST_INSTRUCTIONS, MOST_LOCKS, MOST_TASKS, VARIABLES};
use taskfile::{Instruction, Table, TaskEntry};
use taskfile_records::records::empty_task;
use texts::{Form, NUMBERS, ReadLine};
use writer::Lock;

// One more, and never more than one too many.
pub fn one_more(count: u8, most: u8) -> u8
    requires { most ≤ most_instructions }
    ensures { result ≡ counted most count }
{
    count.min(most) + 1
}

// Stores an element at its place, if the array has it.
fn keep<T: Copy>(array: &mut [T], at: u8, x: T)
    ensures { array.new ≡ set array.old at x }
{
    let at = usize::from(at);
    if at < array.len() {
        array[at] = x;
    }
}

// Adds a task. A ninth is counted and not kept, and so is any after it.
pub fn add_task(t: &mut Table, e: TaskEntry)
    ensures { t.new ≡ add_task t.old e }
{
    let at = t.tasks;
    keep(&mut t.entries, at, e);
    t.tasks = one_more(at, MOST_TASKS);
}

// Adds an instruction to a task. A seventeenth is counted and not kept.
pub fn longer_task(e: &mut TaskEntry, i: Instruction)
    ensures { e.new ≡ longer_task e.old i }
{
    let at = e.length;
    keep(&mut e.body, at, i);
    e.length = one_more(at, MOST_INSTRUCTIONS);
}

// Adds an instruction to the task at a place, if the array has it.
fn longer_at(entries: &mut [TaskEntry], at: usize, i: Instruction)
    ensures { entries.new ≡ set entries.old at (longer_task (get_or entries.old at no_task) i) }
{
    if at < entries.len() {
        longer_task(&mut entries[at], i);
    }
}

// The number of the task that came last, or 0 where none came.
pub fn last_task(tasks: u8) -> usize
    ensures { result ≡ tasks - 1 }
{
    usize::from(tasks.saturating_sub(1))
}

// Adds an instruction to the body of the task that came last.
pub fn add_instruction(t: &mut Table, i: Instruction)
    ensures { t.new ≡ add_instruction t.old i }
{
    let last = last_task(t.tasks);
    longer_at(&mut t.entries, last, i);
}

// Adds a lock. A ninth is counted and not kept, and so is any after it.
pub fn add_lock(t: &mut Table, lock: Lock)
    ensures { t.new ≡ add_lock t.old lock }
{
    let at = t.locks;
    keep(&mut t.ceilings, at, lock.ceiling);
    keep(&mut t.holdings, at, lock.holding);
    t.locks = one_more(at, MOST_LOCKS);
}

// A task's line: its times, and no instruction yet.
pub fn task_with(numbers: [u64; NUMBERS]) -> TaskEntry
    requires { PartFits TaskLine numbers }
    ensures { result ≡ task_with numbers [] }
{
    let body = empty_task().body;
    TaskEntry {
        execution: numbers[0] as u32,
        period: numbers[1] as u32,
        arrival: numbers[2] as u32,
        length: 0,
        body,
    }
}

// An instruction's line: its fields in order.
pub fn instruction_with(operation: u8, numbers: [u64; NUMBERS]) -> Instruction
    requires { PartFits (InstructionLine operation) numbers }
    ensures { result ≡ instruction_with operation numbers }
{
    Instruction {
        operation,
        a: numbers[0] as u8,
        b: numbers[1] as u8,
        c: numbers[2] as u8,
    }
}

// A lock's line: its ceiling and its longest holding time.
pub fn lock_with(numbers: [u64; NUMBERS]) -> Lock
    requires { PartFits LockLine numbers }
    ensures { result ≡ lock_with numbers }
{
    Lock {
        ceiling: numbers[0] as u8,
        holding: numbers[1] as u32,
    }
}

// The line of the start values.
pub fn store_with(numbers: [u64; NUMBERS]) -> [u8; VARIABLES]
    requires { PartFits StartLine numbers }
    ensures { result ≡ bytes_at numbers 0 8 }
{
    let mut store = [0; VARIABLES];
    for v in 0..VARIABLES {
        store[v] = numbers[v] as u8;
    }
    store
}

// Adds a line's part to a table.
pub fn add_part(t: &mut Table, line: &ReadLine)
    requires { PartFits line.now.form line.now.numbers }
    ensures { t.new ≡ add_part t.old line.now.form line.now.numbers }
{
    let numbers = line.numbers;
    match line.form {
        Form::WindowLine => t.window = numbers[0] as u32,
        Form::StartLine => t.store = store_with(numbers),
        Form::TaskLine => add_task(t, task_with(numbers)),
        Form::InstructionLine(operation) => add_instruction(
            t,
            instruction_with(operation, numbers),
        ),
        Form::LockLine => add_lock(t, lock_with(numbers)),
    }
}
