// The bytes of a plan, written from its guesses and the marks of its steps.
ghost use Rattle.std.specs.Prelude.{◌*◌, ◌≤◌, take};
ghost use Rattle.notation_buffers.specs.Code.Pages.{Puts, Fills};
ghost use Rattle.matching_plans.specs.Code.Columns.{job_column, columns_in, plan_in};
ghost use Rattle.timing.specs.Accepted.{most_jobs};

use notation_buffers::pages::Page;
use plan_marks::{Marks, STORES};
use taskfile::limits::VARIABLES;
use timing::ListedJob;

// Writes the guesses of k rounds.
pub fn put_guesses(page: &mut Page, guesses: &[u8; STORES], k: u8)
    requires { k ≤ most_jobs }
    ensures { Puts page.old (take (8 * k) guesses.now) page.new }
{
    page.put_word(&guesses[..VARIABLES * usize::from(k)]);
}

// Writes the steps of job x: two bytes each, round and value.
pub fn put_steps(page: &mut Page, marks: &Marks, x: ListedJob)
    ensures { Puts page.old (job_column marks.now x.number) page.new }
{
    for n in 0..marks.count(x) {
        let step = marks.step(x, n);
        page.put_byte(step.round.0);
        page.put_byte(step.value);
    }
}

// Writes the steps of all k jobs.
pub fn put_jobs(page: &mut Page, marks: &Marks, k: u8)
    requires { k ≤ most_jobs }
    ensures { Puts page.old (columns_in marks.now k) page.new }
{
    for x in 0..k {
        put_steps(page, marks, ListedJob { number: x });
    }
}

// Writes a plan of k jobs: k, the guesses, the steps.
pub fn put_plan(page: &mut Page, guesses: &[u8; STORES], marks: &Marks, k: u8)
    requires { k ≤ most_jobs }
    ensures { Puts page.old (plan_in guesses.now marks.now k) page.new }
{
    page.put_byte(k);
    put_guesses(page, guesses, k);
    put_jobs(page, marks, k);
}

// Fills a buffer: a plan of k jobs, and zeros after it. It answers how many bytes the plan has.
pub fn fill_plan(guesses: &[u8; STORES], marks: &Marks, k: u8, out: &mut [u8]) -> usize
    requires { k ≤ most_jobs }
    ensures { Fills out.old (plan_in guesses.now marks.now k) out.new result }
{
    let mut page = Page::new(out);
    put_plan(&mut page, guesses, marks, k);
    page.clear_rest();
    page.written()
}
