// One step of a plan's run: its two bytes checked, and what it does to its round's store.
ghost use Rattle.std.specs.Prelude.{◌≡◌, ◌+◌, ◌*◌, ◌≤◌, ◌<◌, length, get_or, take, set};
ghost use Rattle.machine.specs.Code.Within.{LocksWithin};
ghost use Rattle.machine.specs.Held.{priority};
ghost use Rattle.machine.specs.Instructions.{perform};
ghost use Rattle.plan.specs.Runs.{round_at};
ghost use Rattle.taskfile.specs.Code.Refusals.{outcome};
ghost use Rattle.plan_marks.specs.Code.Marks.{store_at, with_store};
ghost use Rattle.plan.specs.Runs.{step_bytes_for};
ghost use Rattle.timing.specs.Accepted.{most_jobs};
ghost use Rattle.taskfile.specs.Chains.{most_instructions};
ghost use Rattle.machine.specs.Buffers.{plan_room};

use machine::{Effect, Local};
use machine_locals::held::priority_of;
use machine_locals::values::on_offer;
use machine_performing::instructions::perform_instruction;
use order_states::LentTimes;
use plan::Round;
use plan_marks::rounds::{put_mark, put_store, store_of};
use plan_marks::{STEPS, STORES, StepMark};
use taskfile::limits::JOBS;
use taskfile::refusals::{Refusal, Refused};
use taskfile::{Instruction, Task};
use timing::ListedJob;

// Checks the step whose bytes are at an offset, for its instruction and the round of the job's previous step: 40, 42 or
// 41.
pub fn step_fault(
    plan: &[u8],
    k: u8,
    i: Instruction,
    previous: Round,
    offset: usize,
) -> Result<(), Refused<u32>>
    requires { offset ≤ plan_room }
    ensures { outcome result ≡ step_bytes_for k i plan.now previous offset }
{
    if plan.len() <= offset + 1 {
        return Err(Refusal::Shape.at(plan.len() as u32));
    }
    let round = plan[offset];
    if k <= round || round < previous.0 {
        return Err(Refusal::Round.at(offset as u32));
    }
    if !on_offer(i, plan[offset + 1]) {
        return Err(Refusal::Value.at(offset as u32 + 1));
    }
    Ok(())
}

// Makes the step whose bytes are at an offset: its instruction, from where its job stands, on its round's store.
pub fn make_step(
    plan: &[u8],
    offset: usize,
    i: Instruction,
    local: Local,
    stores: &mut [u8; STORES],
) -> Effect
    requires bytes { (offset + 1 < length plan.now) × ((round_at plan.now offset).0 < most_jobs) }
    requires bounds { (local.next < most_instructions) × LocksWithin local }
    ensures effect { result ≡ perform i (get_or plan.now (offset + 1) 0) local
        (store_at stores.old (round_at plan.now offset).0) }
    ensures stores { stores.new
        ≡ with_store stores.old (round_at plan.now offset).0 result.store }
{
    let r = Round(plan[offset]);
    let effect = perform_instruction(i, plan[offset + 1], local, store_of(stores, r));
    put_store(stores, r, effect.store);
    effect
}

// Marks the step whose bytes are at an offset as step n of job x, which has this base and stands here after it, in arrays
// of any marks. It answers the step's round.
pub fn mark_step(
    plan: &[u8],
    offset: usize,
    lent: &LentTimes,
    base: Task,
    local: Local,
    x: ListedJob,
    n: u8,
    counts: &mut [u8; JOBS],
    steps: &mut [StepMark; STEPS],
) -> Round
    requires bytes { offset + 1 < length plan.now }
    requires bounds { n < most_instructions }
    ensures round { result ≡ round_at plan.now offset }
    ensures counts { counts.new ≡ set counts.old x.number (n + 1) }
    ensures steps { steps.new ≡ set steps.old (16 * x.number + n) (record {
      round = round_at plan.now offset;
      value = get_or plan.now (offset + 1) 0;
      priority = priority (take lent.now.locks.count lent.now.locks.ceilings) base.0 local.held;
    }) }
{
    let r = Round(plan[offset]);
    let priority = priority_of(lent.locks.ceilings, lent.locks.count, base.0, local.held);
    let value = plan[offset + 1];
    let step = StepMark {
        round: r,
        value,
        priority,
    };
    put_mark(counts, steps, x, n, step);
    r
}
