// One function for each operation, on the bytes of a state.
ghost use Rattle.std.specs.Prelude.{◌≡◌, ◌<◌, Bool};
ghost use Rattle.std.specs.Prelude.{if◌then◌else◌};
ghost use Rattle.machine.specs.Held.{acquire, release};
ghost use Rattle.machine.specs.Code.Within.{LocksWithin, Within};
ghost use Rattle.machine.specs.Instructions.{end_job, load_variable, store, set_number, add, subtract};
ghost use Rattle.machine.specs.Instructions.{skip_less, skip_equal, pick, acquire_lock, release_lock, assert};
ghost use Rattle.machine.specs.Instructions.{register, skipping, with_held, with_register};
ghost use Rattle.order_states.specs.Code.StateBytes.{frame_in};
ghost use Rattle.machine_performing.specs.Code.Performed.{LocalMade, Done, Running};
ghost use Rattle.taskfile.specs.Chains.{most_tasks};

use crate::parts::{
    clear_held, go_on, held_in, put_held, put_register, put_variable, register_in, variable_in,
};
use order_states::STATE_BYTES;
use taskfile::Instruction;

// Gives register r of the job at position k the value x, and the job goes on.
fn take_register(s: &mut [u8; STATE_BYTES], k: u8, r: u8, x: u8)
    requires { Running s.old k }
    ensures { LocalMade s.old s.new k (λ l. skipping 0 (with_register r x l)) }
{
    put_register(s, k, r, x);
    go_on(s, k, 0);
}

// The job at position k goes on, and skips c instructions if the test holds of registers a and b.
fn skip_if<F: Fn(u8, u8) -> bool>(s: &mut [u8; STATE_BYTES], k: u8, o: Instruction, test: F)
    requires running { Running s.old k }
    requires test { F.IsAlwaysCallable test }
    ensures { (b : Bool) × F.post test (register (frame_in s.old k).local o.a) (register (frame_in s.old k).local o.b) b
        × LocalMade s.old s.new k (skipping (if b then o.c else 0)) }
{
    let holds = test(register_in(s, k, o.a), register_in(s, k, o.b));
    go_on(s, k, if holds { o.c } else { 0 });
}

// The job at position k holds the lock once more. A job that may still acquire has come to its sixteenth instruction
// at most, so no count leaves its byte.
fn acquire_held(s: &mut [u8; STATE_BYTES], k: u8, lock: u8)
    requires { (k < most_tasks) × Within 15 (frame_in s.old k).local.held }
    ensures { LocalMade s.old s.new k (λ l. with_held (acquire l.held lock) l) }
{
    let count = held_in(s, k, lock);
    put_held(s, k, lock, count + 1);
}

// The job at position k holds the lock once less, if it holds it.
fn release_held(s: &mut [u8; STATE_BYTES], k: u8, lock: u8)
    requires { k < most_tasks }
    ensures { LocalMade s.old s.new k (λ l. with_held (release l.held lock) l) }
{
    let count = held_in(s, k, lock);
    if 0 < count {
        put_held(s, k, lock, count - 1);
    }
}

// 0 End.
pub fn end_in(s: &mut [u8; STATE_BYTES], k: u8, o: Instruction, v: u8) -> bool
    requires { Running s.old k }
    ensures { Done end_job s.old s.new k o v result }
{
    clear_held(s, k);
    go_on(s, k, 0);
    false
}

// 1 Load a from variable b.
pub fn load_in(s: &mut [u8; STATE_BYTES], k: u8, o: Instruction, v: u8) -> bool
    requires { Running s.old k }
    ensures { Done load_variable s.old s.new k o v result }
{
    take_register(s, k, o.a, variable_in(s, o.b));
    false
}

// 2 Store to variable a from register b.
pub fn store_in(s: &mut [u8; STATE_BYTES], k: u8, o: Instruction, v: u8) -> bool
    requires { Running s.old k }
    ensures { Done store s.old s.new k o v result }
{
    put_variable(s, o.a, register_in(s, k, o.b));
    go_on(s, k, 0);
    false
}

// 3 Set register a to the number b.
pub fn set_in(s: &mut [u8; STATE_BYTES], k: u8, o: Instruction, v: u8) -> bool
    requires { Running s.old k }
    ensures { Done set_number s.old s.new k o v result }
{
    take_register(s, k, o.a, o.b);
    false
}

// 4 Add register b to register a.
pub fn add_in(s: &mut [u8; STATE_BYTES], k: u8, o: Instruction, v: u8) -> bool
    requires { Running s.old k }
    ensures { Done add s.old s.new k o v result }
{
    let sum = register_in(s, k, o.a).wrapping_add(register_in(s, k, o.b));
    take_register(s, k, o.a, sum);
    false
}

// 5 Subtract register b from register a.
pub fn subtract_in(s: &mut [u8; STATE_BYTES], k: u8, o: Instruction, v: u8) -> bool
    requires { Running s.old k }
    ensures { Done subtract s.old s.new k o v result }
{
    let difference = register_in(s, k, o.a).wrapping_sub(register_in(s, k, o.b));
    take_register(s, k, o.a, difference);
    false
}

// 6 Skip c instructions if register a is less than register b.
pub fn skip_less_in(s: &mut [u8; STATE_BYTES], k: u8, o: Instruction, v: u8) -> bool
    requires { Running s.old k }
    ensures { Done skip_less s.old s.new k o v result }
{
    skip_if(s, k, o, |x, y| x < y);
    false
}

// 7 The same if equal.
pub fn skip_equal_in(s: &mut [u8; STATE_BYTES], k: u8, o: Instruction, v: u8) -> bool
    requires { Running s.old k }
    ensures { Done skip_equal s.old s.new k o v result }
{
    skip_if(s, k, o, |x, y| x == y);
    false
}

// 8 Pick: register a takes the value chosen.
pub fn pick_in(s: &mut [u8; STATE_BYTES], k: u8, o: Instruction, v: u8) -> bool
    requires { Running s.old k }
    ensures { Done pick s.old s.new k o v result }
{
    take_register(s, k, o.a, v);
    false
}

// 9 Acquire lock a.
pub fn acquire_in(s: &mut [u8; STATE_BYTES], k: u8, o: Instruction, v: u8) -> bool
    requires { Running s.old k × LocksWithin (frame_in s.old k).local }
    ensures { Done acquire_lock s.old s.new k o v result }
{
    acquire_held(s, k, o.a);
    go_on(s, k, 0);
    false
}

// 10 Release lock a.
pub fn release_in(s: &mut [u8; STATE_BYTES], k: u8, o: Instruction, v: u8) -> bool
    requires { Running s.old k }
    ensures { Done release_lock s.old s.new k o v result }
{
    release_held(s, k, o.a);
    go_on(s, k, 0);
    false
}

// 11 Assert: fails if register a is 0.
pub fn assert_in(s: &mut [u8; STATE_BYTES], k: u8, o: Instruction, v: u8) -> bool
    requires { Running s.old k }
    ensures { Done assert s.old s.new k o v result }
{
    let x = register_in(s, k, o.a);
    go_on(s, k, 0);
    x == 0
}
