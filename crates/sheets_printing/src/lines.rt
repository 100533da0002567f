// The lines of a sheet, written on a page.
ghost use Rattle.std.specs.Prelude.{[], ◌∷◌};
ghost use Rattle.notation.specs.Texts.{decimal, line};
ghost use Rattle.notation_buffers.specs.Code.Pages.{Puts};
ghost use Rattle.sheets.specs.SheetWords.{tasks_word, task_word, jobs_word, response_word, verdict_word};
ghost use Rattle.sheets.specs.Sheets.{refused_line};

use notation::characters::SPACE;
use notation_buffers::pages::Page;

// Writes the line of a refusal: `refused 21 0`.
pub fn put_refused(page: &mut Page, number: u64, place: u64)
    ensures { Puts page.old (refused_line number place) page.new }
{
    page.put_word(b"refused");
    page.then_number(number);
    page.then_number(place);
    page.end_line();
}

// Writes the line of totals: `tasks 2 jobs 2`.
pub fn put_totals(page: &mut Page, tasks: u64, jobs: u64)
    ensures { Puts page.old
        (line tasks_word (decimal tasks ∷ jobs_word ∷ decimal jobs ∷ [])) page.new }
{
    page.put_word(b"tasks");
    page.then_number(tasks);
    page.then_word(b"jobs");
    page.then_number(jobs);
    page.end_line();
}

// Writes a task's line: `task 0 response 3 jobs 1`.
pub fn put_task(page: &mut Page, i: u64, response: u64, jobs: u64)
    ensures { Puts page.old
        (line task_word (decimal i ∷ response_word ∷ decimal response ∷ jobs_word ∷ decimal jobs ∷ [])) page.new }
{
    page.put_word(b"task");
    page.then_number(i);
    page.then_word(b"response");
    page.then_number(response);
    page.then_word(b"jobs");
    page.then_number(jobs);
    page.end_line();
}

// Writes the line of a verdict: `verdict holds 23`.
pub fn put_verdict(page: &mut Page, verdict: &[u8], count: u64)
    ensures { Puts page.old (line verdict_word (verdict.now ∷ decimal count ∷ [])) page.new }
{
    page.put_word(b"verdict");
    page.put_byte(SPACE);
    page.put_letters(verdict);
    page.then_number(count);
    page.end_line();
}
