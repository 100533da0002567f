// The wait table of an accepted table's jobs.
ghost use Rattle.std.specs.Prelude.{◌≡◌, ℕ, ◌≤◌, ◌<◌};
ghost use Rattle.order_states.specs.Code.Lent.{precedes, RowFilled, WaitsTo};
ghost use Rattle.order_states.specs.Code.SnapshotSteps.{wait_in};
ghost use Rattle.timing.specs.Accepted.{most_jobs};
ghost use Rattle.taskfile.specs.Chains.{most_tasks};

use order_states::{OWNERS_AT, PROGRAM, TIMES, WAITS};
use order_turns::programs::comes_before;
use taskfile::limits::{MOST_TASKS, TASKS};
use timing::ListedJob;

// Is x another job than y, and does it come before y?
pub fn goes_first(program: &[u8; PROGRAM], times: &[u64; TIMES], x: ListedJob, y: ListedJob) -> bool
    ensures { result ≡ precedes program.now times.now x.number y.number }
{
    x.number != y.number && comes_before(program, times, x, y)
}

// Job y's row of the wait table, of the first `count` jobs: for each task one past its last job that goes first.
pub fn fill_row(
    program: &[u8; PROGRAM],
    times: &[u64; TIMES],
    count: u8,
    y: ListedJob,
    waits: &mut [u8; WAITS],
)
    requires { (count ≤ most_jobs) × ((k : ℕ) → k < most_tasks → wait_in waits.old y.number k ≡ 0) }
    ensures { RowFilled program.now times.now y.number count
        waits.old waits.new }
{
    for x in 0..count {
        let k = program[OWNERS_AT + (x as usize)];
        if k < MOST_TASKS && goes_first(program, times, ListedJob { number: x }, y) {
            waits[TASKS * (y.number as usize) + (k as usize)] = x + 1;
        }
    }
}

// The wait table of the first `count` jobs.
pub fn waits_of(program: &[u8; PROGRAM], times: &[u64; TIMES], count: u8) -> [u8; WAITS]
    requires { count ≤ most_jobs }
    ensures { WaitsTo program.now times.now count count result }
{
    let mut waits = [0u8; WAITS];
    for y in 0..count {
        fill_row(program, times, count, ListedJob { number: y }, &mut waits);
    }
    waits
}
