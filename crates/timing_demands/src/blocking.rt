// How long a task may wait for a lower task's lock. Document 02, E4.
ghost use Rattle.std.specs.Prelude.{◌≡◌, ◌^◌, ◌<◌};
ghost use Rattle.notation.specs.Lists.{any};
ghost use Rattle.taskfile.specs.Code.JudgingParts.{Shaped, ShapedEntry};
ghost use Rattle.timing.specs.Blocking.{tasks_below, is_acquire_of, acquires, blocks, blocking};

use taskfile::{Instruction, Table, Task, TaskEntry, operations};

// Is the instruction an Acquire that names the lock?
pub fn is_acquire_of(here: Instruction, lock: u8) -> bool
    ensures { result ≡ is_acquire_of lock here }
{
    here.operation == operations::ACQUIRE && here.a == lock
}

// Does an Acquire in the task's body name the lock?
pub fn acquires(e: &TaskEntry, lock: u8) -> bool
    requires { ShapedEntry e.now }
    ensures { result ≡ acquires lock e.now }
{
    for here in &e.body[..e.length as usize] {
        if is_acquire_of(*here, lock) {
            return true;
        }
    }
    false
}

// Does some task below i acquire the lock?
pub fn acquired_below(t: &Table, i: Task, lock: u8) -> bool
    requires { Shaped t.now × (i.0 < t.now.tasks) }
    ensures { result ≡ any (acquires lock) (tasks_below t.now i) }
{
    for e in &t.entries[..i.0 as usize] {
        if acquires(e, lock) {
            return true;
        }
    }
    false
}

// Is the lock one that task i may have to wait for?
pub fn blocks(t: &Table, i: Task, lock: u8) -> bool
    requires { Shaped t.now × (i.0 < t.now.tasks) × (lock < t.now.locks) }
    ensures { result ≡ blocks t.now i lock }
{
    i.0 <= t.ceilings[lock as usize] && acquired_below(t, i, lock)
}

// The longest that task i may wait for a lower task's lock. Only a lock that is held for longer than those seen is
// looked for in the bodies.
pub fn blocking_of(t: &Table, i: Task) -> u64
    requires { Shaped t.now × (i.0 < t.now.tasks) }
    ensures { (result ≡ blocking t.now i) × (result < 2 ^ 32) }
{
    let mut longest = 0;
    for lock in (0..t.locks).rev() {
        let holding = t.holdings[lock as usize];
        if longest < holding && blocks(t, i, lock) {
            longest = holding;
        }
    }
    u64::from(longest)
}
