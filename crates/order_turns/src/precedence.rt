// What a job has to wait for, and what it may start over.
ghost use Rattle.std.specs.Prelude.{◌≡◌};
ghost use Rattle.order_states.specs.Code.SnapshotSteps.{must_wait, level_in};
ghost use Rattle.order_states.specs.Code.StateBytes.{snapshot_in};

use machine_locals::held::priority_of;
use notation::bytes::bytes_at;
use order_states::{
    DEPTH_AT, FRAME_BYTES, HELD_AT, Lent, OWNERS_AT, STACK_AT, STATE_BYTES, State, UNENDED_AT,
    WAITS,
};
use taskfile::limits::{MOST_JOBS, MOST_TASKS, TASKS};
use timing::{Job, ListedJob};

// Must job y wait for a job not yet ended? It must if a task's first such job is below the first that y need not wait
// for. All tasks are asked, whatever the first says: the compiler then asks the eight at once.
pub fn must_wait(waits: &[u8; WAITS], s: &[u8; STATE_BYTES], y: ListedJob) -> bool
    ensures { result ≡ must_wait waits.now (snapshot_in s.now).unended y.number }
{
    let row = TASKS * (y.number as usize);
    let mut waiting = false;
    for k in 0..TASKS {
        if s[UNENDED_AT + k] < waits[row + k] {
            waiting = true;
        }
    }
    waiting
}

// The lowest base that may start over the active jobs: one above the present priority of the one started last. Those
// under it are lower: each was started over at a higher base, and has not stepped since.
pub fn level(lent: &Lent, s: &State) -> u8
    ensures { result ≡ level_in lent.now.program lent.now.locks (snapshot_in s.now.bytes) }
{
    let depth = s.bytes[DEPTH_AT];
    if depth == 0 {
        return 0;
    }
    let at = STACK_AT + FRAME_BYTES * ((depth - 1) as usize);
    let x = Job(s.bytes[at]);
    if MOST_JOBS <= x.0 {
        return MOST_TASKS;
    }
    let held = bytes_at(&s.bytes, at + HELD_AT);
    let base = lent.program[OWNERS_AT + (x.0 as usize)];
    let priority = priority_of(lent.locks.ceilings, lent.locks.count, base, held);
    if MOST_TASKS <= priority {
        return MOST_TASKS;
    }
    priority + 1
}
