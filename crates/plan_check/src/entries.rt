// The check of a plan of a table's jobs, and the plan check's entry.
ghost use Rattle.std.specs.Prelude.{◌≡◌};
ghost use Rattle.taskfile.specs.Code.Refusals.{outcome};
ghost use Rattle.plan.specs.Plans.{checked, plan_answer};
ghost use Rattle.plan_marks.specs.Code.TableParts.{PlanCheckedOf};

use crate::legality::{end_store, refuse_illegal};
use machine::{End, RunAnswer};
use machine_locals::run_answers::ended_answer;
use order_lending::lend_times;
use plan_marks::PlanChecked;
use plan_pairs::pair_rules::Marked;
use plan_runs::whole_runs::run_plan;
use taskfile::refusals::Refused;
use timing::ListedTable;
use timing_acceptance::entries::accept_file;

// The check of a plan of a table's jobs: 40 to 45, or its end and the marks of its steps.
pub fn check_table(listed: &ListedTable, plan: &[u8]) -> Result<PlanChecked, Refused<u32>>
    ensures { PlanCheckedOf listed.now.table listed.now.list plan.now result }
{
    let l = lend_times(listed);
    let k = listed.list.count;
    let ran = run_plan(&l, plan, k)?;
    let marked = Marked {
        program: &l.program,
        times: &l.times,
        marks: &ran.marks,
    };
    refuse_illegal(&marked, plan, listed.table.store, &ran.stores, k)?;
    let store = end_store(listed.table.store, &ran.stores, k);
    Ok(PlanChecked {
        end: End {
            store,
            failed: ran.failed,
        },
        marks: ran.marks,
    })
}

// What a plan of a file comes to: the file's refusal, then 40 to 45, or how the plan ends.
pub fn check_file(file: &[u8], plan: &[u8]) -> Result<End, Refused<u32>>
    ensures { outcome result ≡ checked file.now plan.now }
{
    let accepted = accept_file(file)?;
    let listed = ListedTable {
        table: accepted.table,
        list: accepted.list,
    };
    let checked = check_table(&listed, plan)?;
    Ok(checked.end)
}

// The plan check's entry: the file's numbers, then 40 to 45, or the end store and the failed jobs.
pub fn check_plan(file: &[u8], plan: &[u8]) -> RunAnswer
    ensures { result ≡ plan_answer file.now plan.now }
{
    ended_answer(check_file(file, plan))
}
