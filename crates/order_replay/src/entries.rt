// The replay's entry.
ghost use Rattle.std.specs.Prelude.{◌≡◌};
ghost use Rattle.taskfile.specs.Code.Refusals.{outcome};
ghost use Rattle.order.specs.Replay.{replayed, replay_answer};
ghost use Rattle.order_states.specs.Code.ReplayParts.{ReplayOf};

use crate::replaying::replay_from;
use machine::{End, RunAnswer};
use machine_locals::run_answers::ended_answer;
use order_lending::lend;
use taskfile::refusals::Refused;
use timing::ListedTable;
use timing_acceptance::entries::accept_file;

// The replay of an order of a table's jobs.
pub fn replay_table(listed: &ListedTable, order: &[u8]) -> Result<End, Refused<usize>>
    ensures { ReplayOf listed.now.table listed.now.list order.now result }
{
    let lent = lend(listed);
    let mut s = lent.start;
    replay_from(&lent, listed.table.tasks, &mut s, order)
}

// What an order of a file comes to: the file's refusal, the first fault of the order, or how it ends.
pub fn replay_file(file: &[u8], order: &[u8]) -> Result<End, Refused<u32>>
    ensures { outcome result ≡ replayed file.now order.now }
{
    let accepted = accept_file(file)?;
    let listed = ListedTable {
        table: accepted.table,
        list: accepted.list,
    };
    match replay_table(&listed, order) {
        Ok(end) => Ok(end),
        Err(e) => Err(e.why.at(e.place as u32)),
    }
}

// The replay's entry: the file's numbers, then at each byte 32, 33, 30 and 34, and 31 after the last, or the end store
// and the failed jobs.
pub fn replay(file: &[u8], order: &[u8]) -> RunAnswer
    ensures { result ≡ replay_answer file.now order.now }
{
    ended_answer(replay_file(file, order))
}
