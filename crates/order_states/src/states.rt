// The bytes of a state, read and written.
ghost use Rattle.std.specs.Prelude.{◌≡◌, ◌≤◌, ◌<◌};
ghost use Rattle.order_states.specs.Code.StateBytes.{frame_in, Replaced, FrameReplaced};
ghost use Rattle.taskfile.specs.Chains.{most_tasks};

use crate::{FRAME_BYTES, HELD_AT, STACK_AT, STATE_BYTES};
use machine::Local;
use notation::bytes::bytes_at;
use order::Frame;
use timing::Job;

// The active job at position k: its number, a byte that is not used, its next position, its registers, its held locks.
pub fn frame_at(s: &[u8; STATE_BYTES], k: u8) -> Frame
    requires { k < most_tasks }
    ensures { result ≡ frame_in s.now k }
{
    let at = STACK_AT + FRAME_BYTES * (k as usize);
    let held = bytes_at(s, at + HELD_AT);
    Frame {
        job: Job(s[at]),
        local: Local {
            next: u16::from_le_bytes([s[at + 2], s[at + 3]]),
            registers: [s[at + 4], s[at + 5], s[at + 6], s[at + 7]],
            held,
        },
    }
}

// Replaces eight bytes of a state.
pub fn put_eight(s: &mut [u8; STATE_BYTES], at: usize, new: [u8; 8])
    requires { at ≤ 184 }
    ensures { Replaced s.old s.new at new }
{
    s[at..at + 8].copy_from_slice(&new);
}

// Makes job x, with this state of its own, the active job at position k.
pub fn put_frame(s: &mut [u8; STATE_BYTES], k: u8, x: Job, local: Local)
    requires { k < most_tasks }
    ensures { FrameReplaced s.old s.new k (record { job = x; local = local }) }
{
    let at = STACK_AT + FRAME_BYTES * (k as usize);
    let next = local.next.to_le_bytes();
    let r = local.registers;
    put_eight(s, at, [x.0, 0, next[0], next[1], r[0], r[1], r[2], r[3]]);
    put_eight(s, at + HELD_AT, local.held);
}
