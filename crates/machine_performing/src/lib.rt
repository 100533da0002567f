// An instruction performed in place, on the bytes of a state, so that no state of a job and no store is copied for it.
#![tactic(auto)]

pub mod effects;
pub mod instructions;
pub mod parts;

ghost use Rattle.std.specs.Prelude.{◌≡◌, ℕ, ◌<◌, List};
ghost use Rattle.notation.specs.Lists.{bytes_at};
ghost use Rattle.machine.specs.Code.Within.{LocksWithin};
ghost use Rattle.machine.specs.Instructions.{perform};
ghost use Rattle.machine.specs.declared.Local.{Local};
ghost use Rattle.order_states.specs.Code.StateBytes.{frame_in};
ghost use Rattle.machine_performing.specs.Code.Performed.{Performed};
ghost use Rattle.taskfile.specs.Chains.{most_instructions, most_tasks};

use crate::effects::{
    acquire_in, add_in, assert_in, end_in, load_in, pick_in, release_in, set_in, skip_equal_in,
    skip_less_in, store_in, subtract_in,
};
use order_states::STATE_BYTES;
use taskfile::Instruction;
use taskfile::operations::{
    ACQUIRE, ADD, ASSERT, END, LOAD, PICK, RELEASE, SET, SKIP_EQUAL, SKIP_LESS, STORE, SUBTRACT,
};

// Performs an instruction of the active job at position k, where v is the Pick's choice; says whether an assertion
// failed. An operation above 11 is taken as End.
pub fn perform_in(s: &mut [u8; STATE_BYTES], k: u8, o: Instruction, v: u8) -> bool
    requires { (k < most_tasks) × ((frame_in s.old k).local.next < most_instructions)
        × LocksWithin (frame_in s.old k).local }
    ensures failed { result ≡ (perform o v (frame_in s.old k).local (bytes_at s.old 0 8)
        ).failed }
    ensures made { Performed s.old s.new k
        (perform o v (frame_in s.old k).local (bytes_at s.old 0 8)) }
{
    match o.operation {
        LOAD => load_in(s, k, o, v),
        STORE => store_in(s, k, o, v),
        SET => set_in(s, k, o, v),
        ADD => add_in(s, k, o, v),
        SUBTRACT => subtract_in(s, k, o, v),
        SKIP_LESS => skip_less_in(s, k, o, v),
        SKIP_EQUAL => skip_equal_in(s, k, o, v),
        PICK => pick_in(s, k, o, v),
        ACQUIRE => acquire_in(s, k, o, v),
        RELEASE => release_in(s, k, o, v),
        ASSERT => assert_in(s, k, o, v),
        _ => end_in(s, k, o, v),
    }
}

// Does the job end by this instruction? Operation 0 and every one above 11 is End.
pub fn ends(o: Instruction) -> bool
    ensures { (v : ℕ) (l : Local) (s : List ℕ) → (perform o v l s).ended ≡ result }
{
    o.operation == END || ASSERT < o.operation
}
