// The stores of rounds and the marks of jobs, read and written.
ghost use Rattle.std.specs.Prelude.{◌≡◌, ◌+◌, ◌*◌, ◌≤◌, ◌<◌, set};
ghost use Rattle.plan_marks.specs.Code.Marks.{store_at, with_store, step_of, step_marked, step_count, with_mark, no_marks};
ghost use Rattle.taskfile.specs.Chains.{most_instructions};
ghost use Rattle.timing.specs.Accepted.{most_jobs};

use crate::{Marks, STEPS, STORES, StepMark};
use notation::bytes::bytes_at;
use plan::Round;
use taskfile::limits::{INSTRUCTIONS, JOBS, VARIABLES};
use timing::ListedJob;

// The store of round r.
pub fn store_of(stores: &[u8; STORES], r: Round) -> [u8; VARIABLES]
    requires { r.0 < most_jobs }
    ensures { result ≡ store_at stores.now r.0 }
{
    bytes_at(stores, VARIABLES * usize::from(r.0))
}

// Replaces the store of round r.
pub fn put_store(stores: &mut [u8; STORES], r: Round, store: [u8; VARIABLES])
    requires { r.0 < most_jobs }
    ensures { stores.new ≡ with_store stores.old r.0 store }
{
    let at = VARIABLES * usize::from(r.0);
    stores[at..at + VARIABLES].copy_from_slice(&store);
}

// Where step n of job x stands among the marks.
fn step_index(x: ListedJob, n: u8) -> usize
    requires { n < most_instructions }
    ensures { result ≡ 16 * x.number + n }
{
    INSTRUCTIONS * usize::from(x.number) + usize::from(n)
}

// Makes this step, as step n, the last of job x, in arrays of any marks.
pub fn put_mark(
    counts: &mut [u8; JOBS],
    steps: &mut [StepMark; STEPS],
    x: ListedJob,
    n: u8,
    step: StepMark,
)
    requires { n < most_instructions }
    ensures counts { counts.new ≡ set counts.old x.number (n + 1) }
    ensures steps { steps.new ≡ set steps.old (16 * x.number + n) step }
{
    let at = step_index(x, n);
    steps[at] = step;
    counts[usize::from(x.number)] = n + 1;
}

impl Marks {
    // The marks where no job has a step.
    pub fn none() -> Marks
        ensures { result ≡ no_marks }
    {
        let mark = StepMark {
            round: Round(0),
            value: 0,
            priority: 0,
        };
        Marks {
            counts: [0; JOBS],
            steps: [mark; STEPS],
        }
    }

    // How many steps job x has.
    pub fn count(&self, x: ListedJob) -> u8
        ensures counts { result ≡ step_count self.now x.number }
        ensures few { result ≤ most_instructions }
    {
        self.counts[usize::from(x.number)]
    }

    // Step n of job x.
    pub fn step(&self, x: ListedJob, n: u8) -> StepMark
        requires { n < most_instructions }
        ensures { step_of result ≡ step_marked self.now x.number n }
    {
        self.steps[step_index(x, n)]
    }

    // Makes this step, as step n, the last of job x.
    pub fn put(&mut self, x: ListedJob, n: u8, step: StepMark)
        requires { n < most_instructions }
        ensures { self.new ≡ with_mark self.old x.number n (step_of step) }
    {
        put_mark(&mut self.counts, &mut self.steps, x, n, step);
    }
}
