// What an instruction does to a job's own state and a store, by value.
ghost use Rattle.std.specs.Prelude.{◌≡◌, ◌<◌};
ghost use Rattle.machine.specs.Code.Within.{LocksWithin};
ghost use Rattle.machine.specs.Instructions.{perform};
ghost use Rattle.taskfile.specs.Chains.{most_instructions};

use crate::{ends, perform_in};
use machine::{Effect, Local};
use notation::bytes::bytes_at;
use order_states::states::{frame_at, put_eight, put_frame};
use order_states::{STATE_BYTES, STORE_AT};
use taskfile::Instruction;
use taskfile::limits::VARIABLES;
use timing::Job;

// What an instruction does, where v is the Pick's choice: it is performed in the bytes of a state that hold the store
// and this job alone, whose number is not read.
pub fn perform_instruction(i: Instruction, v: u8, l: Local, s: [u8; VARIABLES]) -> Effect
    requires { (l.next < most_instructions) × LocksWithin l }
    ensures { result ≡ perform i v l s }
{
    let mut bytes = [0u8; STATE_BYTES];
    put_eight(&mut bytes, STORE_AT, s);
    put_frame(&mut bytes, 0, Job(0), l);
    let failed = perform_in(&mut bytes, 0, i, v);
    let local = frame_at(&bytes, 0).local;
    let store = bytes_at(&bytes, STORE_AT);
    Effect {
        local,
        store,
        failed,
        ended: ends(i),
    }
}
