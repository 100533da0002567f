// The faults of one body, numbers 7 and 9: at a position, and the first position that has one.
ghost use Rattle.std.specs.Prelude.{◌≡◌, ◌<◌, get_or};
ghost use Rattle.std.specs.List.{find};
ghost use Rattle.taskfile.specs.Code.JudgingParts.{ShapedEntry, body_fault_in, ceiling_fault_in};
ghost use Rattle.notation.specs.Lists.{up_to};
ghost use Rattle.taskfile.specs.Tables.{body_of, end_instruction};

use taskfile::{Instruction, Task, TaskEntry, operations};

// Is the instruction at position p the last and not End, or a skip beyond the last?
pub fn body_fault(e: &TaskEntry, p: u8) -> bool
    requires { ShapedEntry e.now × (p < e.now.length) }
    ensures { result ≡ body_fault_in e.now p }
{
    let here = e.body[p as usize];
    match here.operation {
        operations::END => false,
        operations::SKIP_LESS | operations::SKIP_EQUAL => {
            (e.length as u32) <= (p as u32) + 1 + (here.c as u32)
        }
        _ => p + 1 == e.length,
    }
}

// The first position of a body with a fault of 7.
pub fn first_body_fault(e: &TaskEntry) -> Option<u8>
    requires { ShapedEntry e.now }
    ensures { result ≡ find (body_fault_in e.now) (up_to e.now.length) }
{
    (0..e.length).find(|&p| body_fault(e, p))
}

// Is the instruction an Acquire or Release of a lock that is not there, or an Acquire of one with a ceiling below
// the task's base i? The locks that are there have these ceilings.
pub fn ceiling_fault(ceilings: &[u8], i: Task, here: Instruction) -> bool
    ensures { result ≡ ceiling_fault_in ceilings.now i.0 here }
{
    let lock = here.a as usize;
    match here.operation {
        operations::ACQUIRE => ceilings.len() <= lock || ceilings[lock] < i.0,
        operations::RELEASE => ceilings.len() <= lock,
        _ => false,
    }
}

// The first position of the body of task i with a fault of 9.
pub fn first_ceiling_fault(ceilings: &[u8], i: Task, e: &TaskEntry) -> Option<u8>
    requires { ShapedEntry e.now }
    ensures { result ≡ find
        (λ p. ceiling_fault_in ceilings.now i.0 (get_or (body_of e.now) p end_instruction)) (up_to e.now.length) }
{
    (0..e.length).find(|&p| ceiling_fault(ceilings, i, e.body[p as usize]))
}
