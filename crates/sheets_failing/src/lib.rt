// The lines of a sheet about a failing order.
#![tactic(auto)]

ghost use Rattle.std.specs.Prelude.{◌≤◌, false, map, get_or};
ghost use Rattle.notation.specs.Lists.{up_to, only, each};
ghost use Rattle.notation.specs.Texts.{decimal, line};
ghost use Rattle.notation_buffers.specs.Code.Pages.{Puts};
ghost use Rattle.sheets.specs.SheetWords.{failed_word};
ghost use Rattle.sheets.specs.Sheets.{order_line};
ghost use Rattle.sheets_failing.specs.Code.LineParts.{failed_part, job_line};
ghost use Rattle.timing.specs.Accepted.{most_jobs};

use notation_buffers::pages::Page;
use plan_marks::Marks;
use taskfile::limits::JOBS;
use timing::ListedJob;

// Writes a space and a job's number, if the job has failed.
pub fn then_failed(page: &mut Page, flag: bool, x: u8)
    ensures { Puts page.old (failed_part flag x) page.new }
{
    if flag {
        page.then_number(u64::from(x));
    }
}

// Writes the order's line: `order 0 16 16 ..`.
pub fn put_order(page: &mut Page, order: &[u8])
    ensures { Puts page.old (order_line order.now) page.new }
{
    page.put_word(b"order");
    page.then_numbers(order);
    page.end_line();
}

// Writes the line of failed jobs, of k jobs: `failed 0`.
pub fn put_failed(page: &mut Page, failed: [bool; JOBS], k: u8)
    requires { k ≤ most_jobs }
    ensures { Puts page.old
        (line failed_word (map decimal (only (λ x. get_or failed x false) (up_to k)))) page.new }
{
    page.put_word(b"failed");
    for j in 0..k {
        then_failed(page, failed[usize::from(j)], j);
    }
    page.end_line();
}

// Writes a job's line of rounds: `job 0 rounds 0 1 1 1 1`.
pub fn put_job_rounds(page: &mut Page, marks: &Marks, x: ListedJob)
    ensures { Puts page.old (job_line marks.now x.number) page.new }
{
    page.put_word(b"job");
    page.then_number(u64::from(x.number));
    page.then_word(b"rounds");
    for n in 0..marks.count(x) {
        page.then_number(u64::from(marks.step(x, n).round.0));
    }
    page.end_line();
}

// Writes the lines of rounds of k jobs.
pub fn put_jobs_rounds(page: &mut Page, marks: &Marks, k: u8)
    requires { k ≤ most_jobs }
    ensures { Puts page.old (each (up_to k) (job_line marks.now)) page.new }
{
    for x in 0..k {
        put_job_rounds(page, marks, ListedJob { number: x });
    }
}
