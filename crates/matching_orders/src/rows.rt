// A plan's steps as an order's bytes.
ghost use Rattle.std.specs.Prelude.{◌≡◌, ◌≤◌};
ghost use Rattle.notation_buffers.specs.Code.Pages.{Puts, Fills};
ghost use Rattle.matching_orders.specs.Code.Rows.{written_byte, job_row, round_row, rows_in};
ghost use Rattle.timing.specs.Accepted.{most_jobs};

use notation_buffers::pages::Page;
use order_states::{OWNERS_AT, PROGRAM, VALUES};
use plan::Round;
use plan_marks::Marks;
use taskfile::Task;
use timing::ListedJob;

// The order byte of a task and a value. No task or value of an accepted table is above 15.
pub fn order_byte(task: Task, value: u8) -> u8
    ensures { result ≡ written_byte task.0 value }
{
    if task.0 < VALUES && value < VALUES {
        VALUES * task.0 + value
    } else {
        0
    }
}

// Writes the bytes of job x in round r.
pub fn put_job(page: &mut Page, program: &[u8; PROGRAM], marks: &Marks, r: Round, x: ListedJob)
    ensures { Puts page.old (job_row program.now marks.now r.0 x.number) page.new }
{
    let task = Task(program[OWNERS_AT + usize::from(x.number)]);
    for n in 0..marks.count(x) {
        let step = marks.step(x, n);
        if step.round.0 == r.0 {
            page.put_byte(order_byte(task, step.value));
        }
    }
}

// Writes the bytes of round r, of k jobs.
pub fn put_round(page: &mut Page, program: &[u8; PROGRAM], marks: &Marks, k: u8, r: Round)
    requires { k ≤ most_jobs }
    ensures { Puts page.old (round_row program.now marks.now k r.0) page.new }
{
    for x in 0..k {
        put_job(page, program, marks, r, ListedJob { number: x });
    }
}

// Writes the bytes of all rounds, of k jobs.
pub fn put_rounds(page: &mut Page, program: &[u8; PROGRAM], marks: &Marks, k: u8)
    requires { k ≤ most_jobs }
    ensures { Puts page.old (rows_in program.now marks.now k) page.new }
{
    for r in 0..k {
        put_round(page, program, marks, k, Round(r));
    }
}

// Fills a buffer: the bytes of all rounds, of k jobs, and zeros after them. It answers how many bytes those are.
pub fn fill_order(program: &[u8; PROGRAM], marks: &Marks, k: u8, out: &mut [u8]) -> usize
    requires { k ≤ most_jobs }
    ensures { Fills out.old (rows_in program.now marks.now k) out.new result }
{
    let mut page = Page::new(out);
    put_rounds(&mut page, program, marks, k);
    page.clear_rest();
    page.written()
}
