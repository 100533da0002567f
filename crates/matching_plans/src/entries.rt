// The entry from an order to a plan.
ghost use Rattle.std.specs.Prelude.{◌≡◌, ◌≤◌, length};
ghost use Rattle.notation.specs.Checked.{mapped};
ghost use Rattle.taskfile.specs.Code.Refusals.{outcome};
ghost use Rattle.matching.specs.ConversionEntries.{planned_order, order_to_plan_answer, order_to_plan_after};
ghost use Rattle.matching_plans.specs.Code.PlanWritten.{PlanWritten};
ghost use Rattle.machine.specs.Buffers.{plan_room};

use crate::Trace;
use crate::columns::fill_plan;
use machine::{End, RunAnswer};
use machine_locals::run_answers::written_answer;
use order_lending::lend;
use order_replay::entries::replay_table;
use plan::Round;
use plan_marks::rounds::put_store;
use plan_marks::{Marks, PLAN_ROOM, STORES};
use taskfile::refusals::{Refusal, Refused};
use timing::ListedTable;
use timing_acceptance::entries::accept_file;

// Writes the plan of a complete order of a table's jobs, and zeros after it up to the room of a plan.
pub fn write_plan(listed: &ListedTable, order: &[u8], out: &mut [u8]) -> usize
    requires { plan_room ≤ length out.old }
    ensures { PlanWritten listed.now.table listed.now.list order.now out.old out.new result }
{
    let lent = lend(listed);
    let mut guesses = [0u8; STORES];
    put_store(&mut guesses, Round(0), listed.table.store);
    let mut trace = Trace {
        state: lent.start,
        round: Round(0),
        marks: Marks::none(),
        guesses,
    };
    trace.follow(&lent, order);
    fill_plan(
        &trace.guesses,
        &trace.marks,
        listed.list.count,
        &mut out[..PLAN_ROOM],
    )
}

// Writes the plan of a file's order: the file's refusal, then 20, then 30 to 34; or how the order ends, and the length
// of the plan.
pub fn convert_order(file: &[u8], order: &[u8], out: &mut [u8]) -> Result<(End, u32), Refused<u32>>
    ensures answer { mapped (λ w. record { 0 = w.ending; 1 = length w.bytes })
        (planned_order file.now order.now out.old) ≡ outcome result }
    ensures buffer { out.new ≡ order_to_plan_after file.now order.now out.old }
{
    let accepted = accept_file(file)?;
    if out.len() < PLAN_ROOM {
        return Err(Refusal::Room.at(0));
    }
    let listed = ListedTable {
        table: accepted.table,
        list: accepted.list,
    };
    match replay_table(&listed, order) {
        Ok(end) => {
            let length = write_plan(&listed, order, out);
            Ok((end, length as u32))
        }
        Err(e) => Err(e.why.at(e.place as u32)),
    }
}

// The entry from an order to a plan: the file's numbers, then 20, then 30 to 34. The plan stands at the front of the
// buffer, with zeros after it up to 1,281; a refusal changes nothing.
pub fn order_to_plan(file: &[u8], order: &[u8], out: &mut [u8]) -> RunAnswer
    ensures answer { result ≡ order_to_plan_answer file.now order.now out.old }
    ensures buffer { out.new
        ≡ order_to_plan_after file.now order.now out.old }
{
    written_answer(convert_order(file, order, out))
}
