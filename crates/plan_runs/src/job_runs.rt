// The run of a plan's jobs, each whole, in number order.
ghost use Rattle.std.specs.Prelude.{◌≡◌, ◌+◌, ◌*◌, ◌≤◌};
ghost use Rattle.machine.specs.Ends.{flagged};
ghost use Rattle.plan_marks.specs.Code.RunParts.{JobRanOf, JobsRanOf};
ghost use Rattle.plan_runs.specs.Code.StepBounds.{may_step};
ghost use Rattle.machine.specs.Buffers.{plan_room};
ghost use Rattle.taskfile.specs.Chains.{most_instructions};
ghost use Rattle.timing.specs.Accepted.{most_jobs};

use crate::plan_steps::{make_step, mark_step, step_fault};
use machine::POSITIONS;
use machine_locals::registers::fresh_local;
use order_states::{LentTimes, OWNERS_AT};
use order_turns::programs::instruction_at;
use plan::Round;
use plan_marks::{GUESSES, JobRan, JobsRan, Marks, STEP_BYTES, STORES};
use taskfile::Task;
use taskfile::limits::{JOBS, MOST_INSTRUCTIONS, MOST_TASKS, VARIABLES};
use taskfile::refusals::Refused;
use timing::ListedJob;

// Raises job x's flag if the test holds.
pub fn flag_job(test: bool, x: ListedJob, failed: &mut [bool; JOBS])
    ensures { failed.new ≡ flagged test x.number failed.old }
{
    if test {
        failed[usize::from(x.number)] = true;
    }
}

// May a job make a step at this position of the body of its base? Base and position are within bounds for every job of
// an accepted table.
fn may_step(base: Task, next: u16) -> bool
    ensures { result ≡ may_step base.0 next }
{
    base.0 < MOST_TASKS && next < POSITIONS
}

// The run of job x, whose steps' bytes start at an offset: step after step until its End.
pub fn run_job(
    lent: &LentTimes,
    plan: &[u8],
    k: u8,
    x: ListedJob,
    start: usize,
    stores: &mut [u8; STORES],
    marks: &mut Marks,
) -> Result<JobRan, Refused<u32>>
    requires { (k ≤ most_jobs) × (start + 2 * most_instructions ≤ plan_room) }
    ensures { JobRanOf lent.now.program lent.now.locks plan.now k x.number start
        stores.old marks.old stores.new marks.new result }
{
    let base = Task(lent.program[OWNERS_AT + usize::from(x.number)]);
    let mut local = fresh_local();
    let mut previous = Round(0);
    let mut failed = false;
    let mut offset = start;
    for n in 0..MOST_INSTRUCTIONS {
        if !may_step(base, local.next) {
            break;
        }
        let i = instruction_at(&lent.program, base, local.next);
        step_fault(plan, k, i, previous, offset)?;
        let effect = make_step(plan, offset, i, local, stores);
        previous = mark_step(
            plan,
            offset,
            lent,
            base,
            effect.local,
            x,
            n,
            &mut marks.counts,
            &mut marks.steps,
        );
        failed |= effect.failed;
        offset += STEP_BYTES;
        if effect.ended {
            return Ok(JobRan { offset, failed });
        }
        local = effect.local;
    }
    Ok(JobRan { offset, failed })
}

// The run of all k jobs.
pub fn run_jobs(
    lent: &LentTimes,
    plan: &[u8],
    k: u8,
    stores: &mut [u8; STORES],
    marks: &mut Marks,
) -> Result<JobsRan, Refused<u32>>
    requires { k ≤ most_jobs }
    ensures { JobsRanOf lent.now.program lent.now.locks plan.now k
        stores.old stores.new marks.new result }
{
    let mut failed = [false; JOBS];
    let mut offset = GUESSES + VARIABLES * usize::from(k);
    for x in 0..k {
        let job = ListedJob { number: x };
        let ran = run_job(lent, plan, k, job, offset, stores, marks)?;
        flag_job(ran.failed, job, &mut failed);
        offset = ran.offset;
    }
    Ok(JobsRan { offset, failed })
}
