// A job's own state at its start.
ghost use Rattle.std.specs.Prelude.{◌≡◌};
ghost use Rattle.machine.specs.Instructions.{fresh};

use crate::held::no_locks;
use machine::Local;
use taskfile::limits::REGISTERS;

// The first instruction comes next, every register is 0, and no lock is held.
pub fn fresh_local() -> Local
    ensures { result ≡ fresh }
{
    Local {
        next: 0,
        registers: [0; REGISTERS],
        held: no_locks(),
    }
}
