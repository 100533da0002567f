// What is lent to the steps of an accepted table's orders, and to the runs of its plans: the table in arrays of
// numbers, and the state that an order starts from.
#![tactic(auto)]

pub mod filling;
pub mod first;
pub mod waits;

ghost use Rattle.std.specs.Prelude.{◌≡◌};
ghost use Rattle.order_lending.specs.Code.Lending.{LentOf, TimesOf, locks_of};

use crate::filling::{program_of, times_of};
use crate::first::first_state;
use crate::waits::waits_of;
use order_states::{Lent, LentTimes};
use taskfile::{Ceilings, Table};
use timing::ListedTable;

// The ceilings of a table's locks.
pub fn locks_of(t: &Table) -> Ceilings
    ensures { result ≡ locks_of t.now }
{
    let ceilings = t.ceilings;
    Ceilings {
        count: t.locks,
        ceilings,
    }
}

// What is lent of a table and its jobs to the runs of a plan.
pub fn lend_times(listed: &ListedTable) -> LentTimes
    ensures { TimesOf listed.now.table listed.now.list result }
{
    let program = program_of(listed);
    let times = times_of(&listed.list);
    let locks = locks_of(&listed.table);
    LentTimes {
        program,
        times,
        locks,
    }
}

// What is lent of a table and its jobs to steps.
pub fn lend(listed: &ListedTable) -> Lent
    ensures { LentOf listed.now.table listed.now.list result }
{
    let program = program_of(listed);
    let times = times_of(&listed.list);
    let waits = waits_of(&program, &times, listed.list.count);
    let locks = locks_of(&listed.table);
    let start = first_state(&program, listed.table.store);
    Lent {
        program,
        waits,
        locks,
        start,
    }
}
