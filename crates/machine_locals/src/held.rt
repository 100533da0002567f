// A job's held locks, a count for each lock: none, whether one is held, and the priority that they make.
ghost use Rattle.std.specs.Prelude.{◌≡◌, ◌≤◌, ◌<◌, take};
ghost use Rattle.machine.specs.Held.{no_locks, holds, priority};
ghost use Rattle.taskfile.specs.Chains.{most_locks};

use taskfile::limits::LOCKS;

// No lock.
pub fn no_locks() -> [u8; LOCKS]
    ensures { result ≡ no_locks }
{
    [0; LOCKS]
}

// Is the lock held?
pub fn holds_lock(held: [u8; LOCKS], lock: u8) -> bool
    requires { lock < most_locks }
    ensures { result ≡ holds held lock }
{
    0 < held[lock as usize]
}

// A job's priority: the largest of its base and the ceilings it holds, where the first `locks` ceilings are locks'.
pub fn priority_of(ceilings: [u8; LOCKS], locks: u8, base: u8, held: [u8; LOCKS]) -> u8
    requires { locks ≤ most_locks }
    ensures { result ≡ priority (take locks ceilings) base held }
{
    let mut highest = base;
    for lock in (0..locks).rev() {
        let ceiling = ceilings[lock as usize];
        if holds_lock(held, lock) && highest < ceiling {
            highest = ceiling;
        }
    }
    highest
}
