// How a run stands at a state: whether all jobs have ended, and which have failed.
ghost use Rattle.std.specs.Prelude.{◌≡◌};
ghost use Rattle.notation.specs.Lists.{any, up_to};
ghost use Rattle.order_states.specs.Code.SnapshotSteps.{has_unended, finished_in};
ghost use Rattle.order_states.specs.Code.StateBytes.{snapshot_in};

use order_states::{DEPTH_AT, FAILED_AT, PROGRAM, STATE_BYTES, UNENDED_AT};
use order_turns::programs::owned_by;
use taskfile::Task;
use taskfile::limits::{JOBS, MOST_TASKS};
use timing::Job;

// Has some task a job not yet ended?
pub fn some_unended(program: &[u8; PROGRAM], s: &[u8; STATE_BYTES]) -> bool
    ensures { result ≡ any (has_unended program.now (snapshot_in s.now).unended) (up_to 8) }
{
    (0..MOST_TASKS).any(|k| owned_by(program, Task(k), Job(s[UNENDED_AT + (k as usize)])))
}

// Have all jobs ended?
pub fn finished(program: &[u8; PROGRAM], s: &[u8; STATE_BYTES]) -> bool
    ensures { result ≡ finished_in program.now (snapshot_in s.now) }
{
    s[DEPTH_AT] == 0 && !some_unended(program, s)
}

// The flags of the failed jobs.
pub fn failed_in(s: &[u8; STATE_BYTES]) -> [bool; JOBS]
    ensures { result ≡ (snapshot_in s.now).failed }
{
    let mut failed = [false; JOBS];
    for x in 0..JOBS {
        failed[x] = s[FAILED_AT + x] != 0;
    }
    failed
}

// Has a job failed?
pub fn some_failed(s: &[u8; STATE_BYTES]) -> bool
    ensures { result ≡ any (λ flag. flag) (snapshot_in s.now).failed }
{
    s[FAILED_AT..FAILED_AT + JOBS].iter().any(|flag| *flag != 0)
}
