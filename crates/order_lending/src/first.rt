// The state that an order starts from.
ghost use Rattle.std.specs.Prelude.{◌≡◌, ◌<◌};
ghost use Rattle.order_states.specs.Code.SnapshotSteps.{first_from, first_snapshot};
ghost use Rattle.order_states.specs.Code.StateBytes.{snapshot_in};
ghost use Rattle.taskfile.specs.Chains.{most_tasks};

use order_states::states::put_eight;
use order_states::{OWNERS_AT, PROGRAM, STATE_BYTES, STORE_AT, State, UNENDED_AT};
use taskfile::Task;
use taskfile::limits::{MOST_JOBS, MOST_TASKS, TASKS, VARIABLES};
use timing::Job;

// The number of the first job of task i or above, or 32.
pub fn first_unended(program: &[u8; PROGRAM], i: Task) -> Job
    requires { i.0 < most_tasks }
    ensures { result.0 ≡ first_from program.now i.0 0 32 }
{
    for x in 0..MOST_JOBS {
        if i.0 <= program[OWNERS_AT + (x as usize)] {
            return Job(x);
        }
    }
    Job(MOST_JOBS)
}

// The state that an order starts from.
pub fn first_state(program: &[u8; PROGRAM], store: [u8; VARIABLES]) -> State
    ensures { snapshot_in result.bytes ≡ first_snapshot program.now store }
{
    let mut unended = [0; TASKS];
    for k in 0..MOST_TASKS {
        unended[k as usize] = first_unended(program, Task(k)).0;
    }
    let mut bytes = [0u8; STATE_BYTES];
    put_eight(&mut bytes, STORE_AT, store);
    put_eight(&mut bytes, UNENDED_AT, unended);
    State { bytes }
}
