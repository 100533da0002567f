// The entry from a plan to an order.
ghost use Rattle.std.specs.Prelude.{◌≡◌, ◌≤◌, length};
ghost use Rattle.notation.specs.Checked.{mapped};
ghost use Rattle.taskfile.specs.Code.Refusals.{outcome};
ghost use Rattle.matching.specs.ConversionEntries.{ordered_plan, plan_to_order_answer, plan_to_order_after};
ghost use Rattle.matching_orders.specs.Code.OrderWritten.{OrderWritten};
ghost use Rattle.machine.specs.Buffers.{order_room};

use crate::rows::fill_order;
use machine::{End, RunAnswer};
use machine_locals::run_answers::written_answer;
use order_lending::filling::program_of;
use order_states::ORDER_ROOM;
use plan_check::entries::check_table;
use plan_marks::Marks;
use taskfile::refusals::{Refusal, Refused};
use timing::ListedTable;
use timing_acceptance::entries::accept_file;

// Writes the order of a legal plan's marks, of a table's jobs, and zeros after it up to the room of an order.
pub fn write_order(listed: &ListedTable, marks: &Marks, out: &mut [u8]) -> usize
    requires { order_room ≤ length out.old }
    ensures { OrderWritten listed.now.table listed.now.list marks.now out.old out.new result }
{
    let program = program_of(listed);
    fill_order(&program, marks, listed.list.count, &mut out[..ORDER_ROOM])
}

// Writes the order of a file's plan: the file's refusal, then 20, then 40 to 45; or how the plan ends, and the length of
// the order.
pub fn convert_plan(file: &[u8], plan: &[u8], out: &mut [u8]) -> Result<(End, u32), Refused<u32>>
    ensures answer { mapped (λ w. record { 0 = w.ending; 1 = length w.bytes })
        (ordered_plan file.now plan.now out.old) ≡ outcome result }
    ensures buffer { out.new ≡ plan_to_order_after file.now plan.now out.old }
{
    let accepted = accept_file(file)?;
    if out.len() < ORDER_ROOM {
        return Err(Refusal::Room.at(0));
    }
    let listed = ListedTable {
        table: accepted.table,
        list: accepted.list,
    };
    let checked = check_table(&listed, plan)?;
    let length = write_order(&listed, &checked.marks, out);
    Ok((checked.end, length as u32))
}

// The entry from a plan to an order: the file's numbers, then 20, then 40 to 45. The order stands at the front of the
// buffer, with zeros after it up to 512; a refusal changes nothing.
pub fn plan_to_order(file: &[u8], plan: &[u8], out: &mut [u8]) -> RunAnswer
    ensures answer { result ≡ plan_to_order_answer file.now plan.now out.old }
    ensures buffer { out.new
        ≡ plan_to_order_after file.now plan.now out.old }
{
    written_answer(convert_plan(file, plan, out))
}
