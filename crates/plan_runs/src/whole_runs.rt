// The run of a plan: its first byte and its guesses, its jobs, and nothing left over.
ghost use Rattle.std.specs.Prelude.{◌≡◌, ◌+◌, ◌*◌, ◌≤◌, length, drop};
ghost use Rattle.std.proofs.Math.Seq.{paste};
ghost use Rattle.plan_marks.specs.Code.RunParts.{PlanRanOf};
ghost use Rattle.timing.specs.Accepted.{most_jobs};

use crate::job_runs::run_jobs;
use order_states::LentTimes;
use plan_marks::{GUESSES, Marks, PlanRan, STORES};
use taskfile::limits::VARIABLES;
use taskfile::refusals::{Refusal, Refused};

// The guesses of k rounds, copied from a plan into the rounds' stores.
pub fn copy_guesses(plan: &[u8], k: u8, stores: &mut [u8; STORES])
    requires { (k ≤ most_jobs) × (1 + 8 * k ≤ length plan.now) }
    ensures { stores.new ≡ paste stores.old 0 (drop 1 plan.now) (8 * k) }
{
    let most = VARIABLES * usize::from(k);
    stores[..most].copy_from_slice(&plan[GUESSES..GUESSES + most]);
}

// The run of a plan of k jobs: 40 to 42, or the steps, the stores left in the rounds and the failed jobs.
pub fn run_plan(lent: &LentTimes, plan: &[u8], k: u8) -> Result<PlanRan, Refused<u32>>
    requires { k ≤ most_jobs }
    ensures { PlanRanOf lent.now.program lent.now.locks plan.now k result }
{
    if plan.len() == 0 || plan[0] != k {
        return Err(Refusal::Shape.at(0));
    }
    if plan.len() < GUESSES + VARIABLES * usize::from(k) {
        return Err(Refusal::Shape.at(plan.len() as u32));
    }
    let mut stores = [0u8; STORES];
    let mut marks = Marks::none();
    copy_guesses(plan, k, &mut stores);
    let ran = run_jobs(lent, plan, k, &mut stores, &mut marks)?;
    if ran.offset != plan.len() {
        return Err(Refusal::Shape.at(ran.offset as u32));
    }
    let failed = ran.failed;
    Ok(PlanRan {
        failed,
        stores,
        marks,
    })
}
