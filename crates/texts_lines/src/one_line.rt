// The lines of a table's text, each written on a page.
ghost use Rattle.std.specs.Prelude.{[], ◌∷◌};
ghost use Rattle.notation_buffers.specs.Code.Pages.{Puts};
ghost use Rattle.texts.specs.declared.Form.TheVariants.{WindowLine, StartLine, TaskLine, InstructionLine};
ghost use Rattle.texts.specs.Grammar.{line_with, line_text, row_of};
ghost use Rattle.texts.specs.TextTables.{instruction_line, lock_line};

use notation_buffers::pages::Page;
use taskfile::limits::VARIABLES;
use taskfile::{Instruction, TaskEntry};
use texts::Form;
use texts_reading::line_forms::{field_count, operation_line};
use writer::Lock;

// Writes the name of an operation. One above 11 is taken as End.
pub fn put_name(page: &mut Page, operation: u8)
    ensures { Puts page.old (row_of (InstructionLine operation)).word page.new }
{
    page.put_letters(operation_line(operation).name);
}

// Writes an instruction's line: `load 0 1`.
pub fn put_instruction_line(page: &mut Page, i: Instruction)
    ensures { Puts page.old (line_text (instruction_line i)) page.new }
{
    let fields = [i.a, i.b, i.c];
    let used = field_count(Form::InstructionLine(i.operation));
    put_name(page, i.operation);
    page.then_numbers(&fields[..used]);
    page.end_line();
}

// Writes the window's line: `window 20`.
pub fn put_window_line(page: &mut Page, window: u32)
    ensures { Puts page.old (line_text (line_with WindowLine (window ∷ []))) page.new }
{
    page.put_word(b"window");
    page.then_number(u64::from(window));
    page.end_line();
}

// Writes the line of the start values: `start 0 0 0 0 0 0 0 0`.
pub fn put_start_line(page: &mut Page, store: [u8; VARIABLES])
    ensures { Puts page.old (line_text (line_with StartLine store)) page.new }
{
    page.put_word(b"start");
    page.then_numbers(&store);
    page.end_line();
}

// Writes a task's line: `task 3 10 0`.
pub fn put_task_line(page: &mut Page, e: TaskEntry)
    ensures { Puts page.old
        (line_text (line_with TaskLine (e.execution ∷ e.period ∷ e.arrival ∷ []))) page.new }
{
    page.put_word(b"task");
    page.then_number(u64::from(e.execution));
    page.then_number(u64::from(e.period));
    page.then_number(u64::from(e.arrival));
    page.end_line();
}

// Writes a lock's line: `lock 1 3`.
pub fn put_lock_line(page: &mut Page, lock: Lock)
    ensures { Puts page.old (line_text (lock_line lock)) page.new }
{
    page.put_word(b"lock");
    page.then_number(u64::from(lock.ceiling));
    page.then_number(u64::from(lock.holding));
    page.end_line();
}
