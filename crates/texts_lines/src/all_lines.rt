// The lines of a table's text one after the other, written on a page.
ghost use Rattle.std.specs.Prelude.{◌≡◌, min, map, take, length};
ghost use Rattle.notation.specs.Lists.{each};
ghost use Rattle.notation_buffers.specs.Code.Pages.{Puts};
ghost use Rattle.notation_buffers.specs.Code.Writing.{Appends};
ghost use Rattle.taskfile.specs.Tables.{tasks_of, body_of};
ghost use Rattle.writer.specs.Claims.{lock_array};
ghost use Rattle.texts.specs.Grammar.{joined};
ghost use Rattle.texts.specs.TextTables.{instruction_line, task_lines, lock_line, text_of};

use crate::one_line::{
    put_instruction_line, put_lock_line, put_start_line, put_task_line, put_window_line,
};
use notation_buffers::pages::Page;
use taskfile::limits::{MOST_INSTRUCTIONS, MOST_LOCKS, MOST_TASKS};
use taskfile::{Table, TaskEntry};
use writer_layout::claimed_parts::{entry_of, instruction_of, lock_of};

// As many as the count says, and never more than the array holds.
pub fn held_count(count: u8, most: u8) -> u8
    ensures { result ≡ min count most }
{
    count.min(most)
}

// Writes the lines of a task's body.
pub fn put_body_lines(page: &mut Page, e: TaskEntry)
    ensures { Puts page.old (joined (map instruction_line (body_of e))) page.new }
{
    for p in 0..held_count(e.length, MOST_INSTRUCTIONS) {
        put_instruction_line(page, instruction_of(e, p));
    }
}

// Writes a task's line and the lines of its body.
pub fn put_task_lines(page: &mut Page, e: TaskEntry)
    ensures { Puts page.old (joined (task_lines e)) page.new }
{
    put_task_line(page, e);
    put_body_lines(page, e);
}

// Writes the lines of a table's tasks, each followed by its body.
pub fn put_tasks_lines(page: &mut Page, t: Table)
    ensures { Puts page.old (joined (each (tasks_of t) task_lines)) page.new }
{
    for i in 0..held_count(t.tasks, MOST_TASKS) {
        put_task_lines(page, entry_of(t, i));
    }
}

// Writes the lines of a table's locks.
pub fn put_lock_lines(page: &mut Page, t: Table)
    ensures { Puts page.old (joined (map lock_line (take t.locks (lock_array t)))) page.new }
{
    for l in 0..held_count(t.locks, MOST_LOCKS) {
        put_lock_line(page, lock_of(t, l));
    }
}

// Writes a table's text at the front of the buffer, and answers how many bytes it has.
pub fn put_text(t: Table, out: &mut [u8]) -> usize
    ensures { Appends (length out.old) out.old 0 (text_of t) out.new result }
{
    let mut page = Page::new(out);
    put_window_line(&mut page, t.window);
    put_start_line(&mut page, t.store);
    put_tasks_lines(&mut page, t);
    put_lock_lines(&mut page, t);
    page.written()
}
