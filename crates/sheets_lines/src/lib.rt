// The sheet of a file, written into a lent text.
#![tactic(auto)]

ghost use Rattle.std.specs.Prelude.{◌≡◌};
ghost use Rattle.notation.specs.Lists.{up_to, each};
ghost use Rattle.notation_buffers.specs.Code.Pages.{Puts};
ghost use Rattle.timing.specs.Code.ResponseParts.{Timeable};
ghost use Rattle.sheets.specs.Sheets.{sheet_of, sheet_answer, sheet_after};
ghost use Rattle.sheets_lines.specs.Code.SheetParts.{task_text, Parts, MarksOf};
ghost use Rattle.sheets_lines.specs.Code.SheetParts.{PutsFailure, PutsFindings};

use matching_plans::entries::write_plan;
use notation_buffers::pages::Page;
use order_states::ORDER_ROOM;
use plan_check::entries::check_table;
use plan_marks::{Marks, PLAN_ROOM};
use sheets::{ALLOWANCE, SHEET_ROOM, SheetAnswer};
use sheets_failing::{put_failed, put_jobs_rounds, put_order};
use sheets_printing::lines::{put_refused, put_task, put_totals, put_verdict};
use taskfile::Table;
use taskfile::limits::TASKS;
use taskfile::refusals::Refusal;
use timing::ListedTable;
use timing_acceptance::entries::accept_file;
use timing_jobs::jobs_within;
use walk::{Verdict, WalkAnswer};
use walk_trials::entries::walk_table;
use walk_trials::outcome_answer;

// Writes each task's line.
pub fn put_tasks(page: &mut Page, t: Table, responses: [u64; TASKS])
    requires { Timeable t }
    ensures { Puts page.old (each (up_to t.tasks) (task_text t responses)) page.new }
{
    for i in 0..t.tasks {
        let jobs = jobs_within(t.window, t.entries[usize::from(i)]);
        put_task(page, u64::from(i), responses[usize::from(i)], jobs);
    }
}

// The marks of the steps of a complete order's plan.
pub fn plan_marks(listed: &ListedTable, order: &[u8]) -> Marks
    ensures { MarksOf listed.now.table listed.now.list order.now result }
{
    let mut plan = [0u8; PLAN_ROOM];
    let size = write_plan(listed, order, &mut plan);
    match check_table(listed, &plan[..size]) {
        Ok(checked) => checked.marks,
        Err(_) => Marks::none(),
    }
}

// Writes the lines of a failing order: the verdict, the order, the failed jobs, and each job's rounds in its plan.
pub fn put_failure(page: &mut Page, listed: &ListedTable, w: WalkAnswer, order: &[u8])
    ensures { PutsFailure listed.now.table listed.now.list w order.now page.old page.new }
{
    put_verdict(page, b"fails", w.count);
    put_order(page, order);
    put_failed(page, w.failed, listed.list.count);
    put_jobs_rounds(page, &plan_marks(listed, order), listed.list.count);
}

// Writes what the walk found.
pub fn put_findings(page: &mut Page, listed: &ListedTable)
    requires { Parts listed.now.table listed.now.list }
    ensures { PutsFindings listed.now.table listed.now.list page.old page.new }
{
    let mut order = [0u8; ORDER_ROOM];
    let r = walk_table(listed, ALLOWANCE, &mut order);
    let w = outcome_answer(r);
    if w.number != 0 {
        put_refused(page, w.number as u64, w.place as u64);
        return;
    }
    let verdict = w.verdict;
    if let Verdict::Fails = verdict {
        let size = w.length as usize;
        put_failure(page, listed, w, &order[..size]);
        return;
    }
    put_verdict(page, b"holds", w.count);
}

// Writes the sheet of a file.
pub fn put_sheet(page: &mut Page, file: &[u8])
    ensures { Puts page.old (sheet_of file.now) page.new }
{
    match accept_file(file) {
        Err(e) => put_refused(page, u64::from(e.why.number()), u64::from(e.place)),
        Ok(accepted) => {
            let t = accepted.table;
            put_totals(page, u64::from(t.tasks), u64::from(accepted.list.count));
            put_tasks(page, t, accepted.responses);
            let listed = ListedTable {
                table: t,
                list: accepted.list,
            };
            put_findings(page, &listed);
        }
    }
}

// The sheet's entry: the sheet at the front of the text, or 20 if it might not fit.
pub fn fill_sheet(file: &[u8], text: &mut [u8]) -> SheetAnswer
    ensures answer { result ≡ sheet_answer file.now text.old }
    ensures written { text.new ≡ sheet_after file.now text.old }
{
    if text.len() < SHEET_ROOM {
        return SheetAnswer {
            number: Refusal::Room as u8,
            place: 0,
            length: 0,
        };
    }
    let mut page = Page::new(text);
    put_sheet(&mut page, file);
    SheetAnswer {
        number: 0,
        place: 0,
        length: page.written() as u32,
    }
}
