// A table laid out as a task file: the header, each task followed by its body, then the locks.
ghost use Rattle.std.specs.Prelude.{ℕ, ◌≤◌, List, length};
ghost use Rattle.writer.specs.Claims.{claimed_tasks, claimed_body, claimed_locks};
ghost use Rattle.writer.specs.Layout.{body_records, task_records, lock_records, layout, layout_room};
ghost use Rattle.notation_buffers.specs.Code.Pages.{Puts};
ghost use Rattle.notation_buffers.specs.Code.Writing.{Appends};
ghost use Rattle.writer_layout.specs.Code.Layouts.{task_part, WritesParts, chain_records};

use crate::claimed_parts::{
    body_count, entry_of, instruction_of, link_at, lock_count, lock_of, record_total, task_count,
};
use crate::record_bytes::{put_header, put_instruction, put_lock, put_task_record};
use notation_buffers::pages::Page;
use taskfile::{Table, TaskEntry};

// The index of the first task's record, after the header.
const FIRST_TASK: u8 = 1;

// Writes the records of a chain's `count` parts from index r on, each with its link to the next.
fn put_chain<F: Fn(u8, u8, &mut Page)>(page: &mut Page, count: u8, r: u8, put: F)
    requires few { (r ≤ 200) × (count ≤ 17) }
    requires may { (p link : ℕ) (o : _) → F.pre put p link o }
    ensures { (records : ℕ → ℕ → List ℕ) → WritesParts (F.post put) count records
        → Puts page.old (chain_records records r count count) page.new }
{
    for p in 0..count {
        put(p, link_at(r + p + 1, p + 1, count), page);
    }
}

// Writes the records of a body from index r on.
pub fn put_body(page: &mut Page, e: TaskEntry, r: u8)
    requires { r ≤ 200 }
    ensures { Puts page.old (body_records r (claimed_body e)) page.new }
{
    put_chain(
        page,
        body_count(e),
        r,
        |p, link, page| put_instruction(page, instruction_of(e, p), link),
    );
}

// Writes the record of a task at index r, whose next record is at index `link`, and its body.
pub fn put_task(page: &mut Page, e: TaskEntry, r: u8, link: u8)
    requires { r ≤ 180 }
    ensures { Puts page.old (task_part e r link) page.new }
{
    let first = link_at(r + 1, 0, body_count(e));
    put_task_record(page, e, link, first);
    put_body(page, e, r + 1);
}

// Writes the records of a table's tasks, each followed by its body.
pub fn put_tasks(page: &mut Page, t: Table)
    ensures { Puts page.old (task_records 1 (claimed_tasks t)) page.new }
{
    let count = task_count(t);
    let mut r = FIRST_TASK;
    for i in 0..count {
        let e = entry_of(t, i);
        let after = r + 1 + body_count(e);
        put_task(page, e, r, link_at(after, i + 1, count));
        r = after;
    }
}

// Writes the records of a table's locks from index r on.
pub fn put_locks(page: &mut Page, t: Table, r: u8)
    requires { r ≤ 200 }
    ensures { Puts page.old (lock_records r (claimed_locks t)) page.new }
{
    put_chain(
        page,
        lock_count(t),
        r,
        |l, link, page| put_lock(page, lock_of(t, l), link),
    );
}

// Writes a table's records in walk order at the front of the buffer, and answers how many bytes they are.
pub fn put_layout(t: Table, out: &mut [u8]) -> usize
    requires { layout_room ≤ length out.old }
    ensures { Appends layout_room out.old 0 (layout t) out.new result }
{
    let locks = FIRST_TASK + record_total(t);
    let task = link_at(FIRST_TASK, 0, task_count(t));
    let lock = link_at(locks, 0, lock_count(t));
    let mut page = Page::new(out);
    put_header(&mut page, t, task, lock);
    put_tasks(&mut page, t);
    put_locks(&mut page, t, locks);
    page.written()
}
