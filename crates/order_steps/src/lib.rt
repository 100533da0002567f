// The step that an order byte asks for.
#![tactic(auto)]

ghost use Rattle.std.specs.Prelude.{◌≡◌, List, ℕ, ◌≤◌, ◌<◌};
ghost use Rattle.machine.specs.Code.Within.{LocksWithin};
ghost use Rattle.order_states.specs.Code.SnapshotSteps.{step_in, made_in};
ghost use Rattle.order_states.specs.Code.StateBytes.{frame_in, snapshot_in, IsState, FrameReplaced};
ghost use Rattle.order_steps.specs.Code.Moving.{Steppable, mover_in, Movable, moved_in};
ghost use Rattle.order_steps.specs.Code.Noted.{Noted};
ghost use Rattle.timing.specs.Accepted.{most_jobs};
ghost use Rattle.taskfile.specs.Chains.{most_instructions, most_tasks};

use machine_locals::registers::fresh_local;
use machine_performing::parts::next_in;
use machine_performing::{ends, perform_in};
use order::Frame;
use order_states::states::put_frame;
use order_states::{
    DEPTH_AT, FAILED_AT, FRAME_BYTES, Lent, PROGRAM, STACK_AT, STATE_BYTES, State, UNENDED_AT,
    VALUES,
};
use order_turns::programs::instruction_at;
use order_turns::turns::{offered, turn_of};
use taskfile::Task;
use timing::{Job, ListedJob};

// Notes what came of a step of job x of task i, with so many active jobs under it: a failed assertion, and whether the
// job has ended or is active on.
pub fn note(s: &mut [u8; STATE_BYTES], x: ListedJob, under: u8, i: Task, failed: bool, ended: bool)
    requires { (under < most_tasks) × (i.0 < most_tasks) }
    ensures { Noted s.old s.new x.number under i.0 failed ended }
{
    if failed {
        s[FAILED_AT + (x.number as usize)] = 1;
    }
    if ended {
        s[UNENDED_AT + (i.0 as usize)] = x.number + 1;
        s[DEPTH_AT] = under;
    } else {
        s[DEPTH_AT] = under + 1;
    }
}

// Makes the step of the active job at position `under`, of task i, with the value v: it performs its instruction, and
// what came of that is noted. It is the step of every state that is this one but for the job placed there.
pub fn step_placed(program: &[u8; PROGRAM], s: &mut [u8; STATE_BYTES], under: u8, i: Task, v: u8)
    requires bounds { (under < most_tasks) × (i.0 < most_tasks) }
    requires placed { Steppable (frame_in s.old under) }
    ensures { (before : List ℕ) (f : Frame) → IsState before → FrameReplaced before s.old under f
        → (snapshot_in s.new ≡ made_in program.now (snapshot_in before) f under i.0 v)
        × IsState s.new }
{
    let x = ListedJob {
        number: s[STACK_AT + FRAME_BYTES * (under as usize)],
    };
    let instruction = instruction_at(program, i, next_in(s, under));
    let failed = perform_in(s, under, instruction, v);
    note(s, x, under, i, failed, ends(instruction));
}

// Makes the step of the job in the frame, of task i, with the value v: it is placed, and steps there.
pub fn step_with(program: &[u8; PROGRAM], s: &mut State, f: Frame, under: u8, i: Task, v: u8)
    requires bounds { (f.job.0 < most_jobs) × (f.local.next < most_instructions) × (under < most_tasks)
        × (i.0 < most_tasks) }
    requires within { LocksWithin f.local }
    ensures { snapshot_in s.new.bytes ≡ made_in program.now (snapshot_in s.old.bytes) f under i.0 v }
{
    put_frame(&mut s.bytes, under, f.job, f.local);
    step_placed(program, &mut s.bytes, under, i, v);
}

// Places the job whose turn task i's is, if it starts, and says its position. The running job, if `top` is that task,
// stands there already.
pub fn place(s: &mut [u8; STATE_BYTES], top: Task, i: Task) -> u8
    requires { IsState s.old × (i.0 < most_tasks) × (i.0 ≡ top.0 → 1 ≤ (snapshot_in s.old).depth)
        × ((mover_in (snapshot_in s.old) top.0 i.0).under < most_tasks) }
    ensures { (result ≡ (mover_in (snapshot_in s.old) top.0 i.0).under)
        × FrameReplaced s.old s.new result
        (mover_in (snapshot_in s.old) top.0 i.0).frame }
{
    let depth = s[DEPTH_AT];
    if i.0 == top.0 {
        return depth - 1;
    }
    let y = Job(s[UNENDED_AT + (i.0 as usize)]);
    put_frame(s, depth, y, fresh_local());
    depth
}

// Makes the move of an order byte, 16 times the task and the value, where `top` is the running job's task: a step of
// that job, or a start.
pub fn make_move(program: &[u8; PROGRAM], s: &mut State, top: Task, byte: u8)
    requires { Movable s.old.bytes top.0 byte }
    ensures { snapshot_in s.new.bytes ≡ moved_in program.now (snapshot_in s.old.bytes) top.0 byte }
{
    let i = Task(byte / VALUES);
    let under = place(&mut s.bytes, top, i);
    step_placed(program, &mut s.bytes, under, i, byte % VALUES);
}

// The step that a byte asks for, 16 times the task and the value, if it is allowed; else nothing changes.
pub fn step(lent: &Lent, s: &mut State, byte: u8) -> bool
    ensures allowed { result ≡ (step_in lent.now.program lent.now.waits lent.now.locks
        (snapshot_in s.old.bytes) byte).allowed }
    ensures made { snapshot_in s.new.bytes ≡ (step_in lent.now.program lent.now.waits lent.now.locks
        (snapshot_in s.old.bytes) byte).state }
{
    let i = Task(byte / VALUES);
    let Some(d) = turn_of(lent, s, i) else {
        return false;
    };
    let allowed = offered(&lent.program, d.frame, i, byte % VALUES);
    if allowed {
        step_with(&lent.program, s, d.frame, d.under, i, byte % VALUES);
    }
    allowed
}
