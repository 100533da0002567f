// The parts of a state that an instruction reads and changes, a byte at a time: registers, held counts, variables, and
// the next position.
ghost use Rattle.std.specs.Prelude.{◌≡◌, ◌<◌, slice_index, slice_set};
ghost use Rattle.notation.specs.Lists.{bytes_at};
ghost use Rattle.machine.specs.Held.{count_of, no_locks};
ghost use Rattle.machine.specs.Instructions.{register, skipping, with_register, with_held};
ghost use Rattle.order_states.specs.Code.StateBytes.{frame_in};
ghost use Rattle.machine_performing.specs.Code.Performed.{LocalMade, StoreMade, Running, with_next};
ghost use Rattle.taskfile.specs.Chains.{most_tasks};

use order_states::states::put_eight;
use order_states::{FRAME_BYTES, HELD_AT, STACK_AT, STATE_BYTES};
use taskfile::limits::{LOCKS, MOST_LOCKS, MOST_REGISTERS, MOST_VARIABLES};

// Where the low byte of the next position stands among the bytes of an active job.
const NEXT_LOW: usize = 2;

// Where its high byte stands.
const NEXT_HIGH: usize = 3;

// Where register 0 stands.
const FIRST_REGISTER: usize = 4;

// The value of a register of the job at position k. A number that is no register's has 0.
pub fn register_in(s: &[u8; STATE_BYTES], k: u8, r: u8) -> u8
    requires { k < most_tasks }
    ensures { result ≡ register (frame_in s.now k).local r }
{
    if r < MOST_REGISTERS {
        s[STACK_AT + FRAME_BYTES * (k as usize) + FIRST_REGISTER + (r as usize)]
    } else {
        0
    }
}

// How often the job at position k holds a lock. A number that is no lock's has 0.
pub fn held_in(s: &[u8; STATE_BYTES], k: u8, lock: u8) -> u8
    requires { k < most_tasks }
    ensures { result ≡ count_of (frame_in s.now k).local.held lock }
{
    if lock < MOST_LOCKS {
        s[STACK_AT + FRAME_BYTES * (k as usize) + HELD_AT + (lock as usize)]
    } else {
        0
    }
}

// The value of a shared variable. A number that is no variable's has 0.
pub fn variable_in(s: &[u8; STATE_BYTES], v: u8) -> u8
    ensures { result ≡ slice_index (bytes_at s.now 0 8) v }
{
    if v < MOST_VARIABLES { s[v as usize] } else { 0 }
}

// The next position of the job at position k.
pub fn next_in(s: &[u8; STATE_BYTES], k: u8) -> u16
    requires { k < most_tasks }
    ensures { result ≡ (frame_in s.now k).local.next }
{
    let at = STACK_AT + FRAME_BYTES * (k as usize);
    u16::from_le_bytes([s[at + NEXT_LOW], s[at + NEXT_HIGH]])
}

// Gives a register of the job at position k a value. A number that is no register's changes nothing.
pub fn put_register(s: &mut [u8; STATE_BYTES], k: u8, r: u8, x: u8)
    requires { k < most_tasks }
    ensures { LocalMade s.old s.new k (with_register r x) }
{
    if r < MOST_REGISTERS {
        let at = STACK_AT + FRAME_BYTES * (k as usize);
        s[at + FIRST_REGISTER + (r as usize)] = x;
    }
}

// Makes a held count of the job at position k this number. A number that is no lock's changes nothing.
pub fn put_held(s: &mut [u8; STATE_BYTES], k: u8, lock: u8, n: u8)
    requires { k < most_tasks }
    ensures { LocalMade s.old s.new k (λ l. with_held (slice_set l.held lock n) l) }
{
    if lock < MOST_LOCKS {
        let at = STACK_AT + FRAME_BYTES * (k as usize);
        s[at + HELD_AT + (lock as usize)] = n;
    }
}

// Makes the job at position k hold no lock.
pub fn clear_held(s: &mut [u8; STATE_BYTES], k: u8)
    requires { k < most_tasks }
    ensures { LocalMade s.old s.new k (with_held no_locks) }
{
    put_eight(
        s,
        STACK_AT + FRAME_BYTES * (k as usize) + HELD_AT,
        [0; LOCKS],
    );
}

// Gives a shared variable a value. A number that is no variable's changes nothing.
pub fn put_variable(s: &mut [u8; STATE_BYTES], v: u8, x: u8)
    ensures { StoreMade s.old s.new (slice_set (bytes_at s.old 0 8) v x) }
{
    if v < MOST_VARIABLES {
        s[v as usize] = x;
    }
}

// Makes this the next position of the job at position k, the low byte first.
pub fn put_next(s: &mut [u8; STATE_BYTES], k: u8, next: u16)
    requires { k < most_tasks }
    ensures { LocalMade s.old s.new k (with_next next) }
{
    let at = STACK_AT + FRAME_BYTES * (k as usize);
    let bytes = next.to_le_bytes();
    s[at + NEXT_LOW] = bytes[0];
    s[at + NEXT_HIGH] = bytes[1];
}

// The job at position k goes on to its next instruction, after n that it skips.
pub fn go_on(s: &mut [u8; STATE_BYTES], k: u8, n: u8)
    requires { Running s.old k }
    ensures { LocalMade s.old s.new k (skipping n) }
{
    let next = next_in(s, k) + 1 + u16::from(n);
    put_next(s, k, next);
}
