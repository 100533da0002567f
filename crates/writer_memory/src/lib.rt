// A table in lent bytes: read from them, and written into them. Document 02, E2.
#![tactic(auto)]

ghost use Rattle.std.specs.Prelude.{◌≡◌, ℕ, ◌+◌, ◌≤◌, List, length};
ghost use Rattle.notation.specs.Lists.{each};
ghost use Rattle.writer.specs.Layout.{wide_bytes};
ghost use Rattle.writer.specs.Memory.{table_bytes, entry_size, wide_size, instruction_size};
ghost use Rattle.writer.specs.Memory.{wide_in, instruction_in, entry_in, holdings_in, table_in};
ghost use Rattle.writer.specs.Memory.{instruction_bytes, entry_bytes, memory_of};
ghost use Rattle.notation_buffers.specs.Code.Pages.{Puts};
ghost use Rattle.notation_buffers.specs.Code.Writing.{Appends};

use notation::bytes::bytes_at;
use notation_buffers::pages::Page;
use std::array;
use taskfile::limits::LOCKS;
use taskfile::{Instruction, Table, TaskEntry};
use writer::places;
use writer_layout::wides::put_wide;

// The wide field at a place of the memory, low byte first.
fn wide_in(memory: &[u8], at: usize) -> u32
    requires { at + wide_size ≤ length memory.now }
    ensures { result ≡ wide_in memory.now at }
{
    u32::from_le_bytes(bytes_at(memory, at))
}

// The eight longest holding times.
fn holdings_in(memory: &[u8]) -> [u32; LOCKS]
    requires { table_bytes ≤ length memory.now }
    ensures { result ≡ holdings_in memory.now }
{
    array::from_fn(|l| wide_in(memory, places::HOLDINGS + places::HOLDING * l))
}

fn instruction_in(memory: &[u8], at: usize) -> Instruction
    requires { at + instruction_size ≤ length memory.now }
    ensures { result ≡ instruction_in memory.now at }
{
    Instruction {
        operation: memory[at + places::OPERATION],
        a: memory[at + places::FIELD_A],
        b: memory[at + places::FIELD_B],
        c: memory[at + places::FIELD_C],
    }
}

fn entry_in(memory: &[u8], at: usize) -> TaskEntry
    requires { at + entry_size ≤ length memory.now }
    ensures { result ≡ entry_in memory.now at }
{
    let body = at + places::BODY;
    TaskEntry {
        execution: wide_in(memory, at + places::EXECUTION),
        period: wide_in(memory, at + places::PERIOD),
        arrival: wide_in(memory, at + places::ARRIVAL),
        length: memory[at + places::LENGTH],
        body: array::from_fn(|p| instruction_in(memory, body + places::INSTRUCTION * p)),
    }
}

// The table that lent bytes hold.
pub fn table_in(memory: &[u8]) -> Table
    requires { table_bytes ≤ length memory.now }
    ensures { result ≡ table_in memory.now }
{
    Table {
        window: wide_in(memory, places::WINDOW),
        store: bytes_at(memory, places::STORE),
        tasks: memory[places::TASKS],
        entries: array::from_fn(|i| entry_in(memory, places::ENTRIES + places::ENTRY * i)),
        locks: memory[places::LOCKS],
        ceilings: bytes_at(memory, places::CEILINGS),
        holdings: holdings_in(memory),
    }
}

// A part of a table that is written as bytes.
trait InMemory {
    ghost bytes: { Self → List ℕ };

    // Writes its bytes.
    fn put(&self, page: &mut Page)
        ensures { Puts page.old (bytes self.now) page.new };
}

impl InMemory for u32 {
    ghost bytes = { wide_bytes };

    fn put(&self, page: &mut Page) {
        put_wide(page, *self);
    }
}

impl InMemory for Instruction {
    ghost bytes = { instruction_bytes };

    fn put(&self, page: &mut Page) {
        page.put_word(&[self.operation, self.a, self.b, self.c]);
    }
}

impl InMemory for TaskEntry {
    ghost bytes = { entry_bytes };

    fn put(&self, page: &mut Page) {
        self.execution.put(page);
        self.period.put(page);
        self.arrival.put(page);
        page.put_word(&[self.length, 0, 0, 0]);
        self.body.put(page);
    }
}

// An array's elements, one after the other.
impl<T: InMemory, const N: usize> InMemory for [T; N] {
    ghost bytes = { λ elements. each elements T.bytes };

    fn put(&self, page: &mut Page) {
        for element in self {
            element.put(page);
        }
    }
}

// Writes a table at the front of the bytes, and answers how many they are: the room is just enough.
pub fn put_table(t: Table, out: &mut [u8]) -> usize
    requires { table_bytes ≤ length out.old }
    ensures written { Appends table_bytes out.old 0 (memory_of t) out.new result }
    ensures whole { length (memory_of t) ≡ table_bytes }
{
    let mut page = Page::new(out);
    t.window.put(&mut page);
    page.put_word(&t.store);
    page.put_word(&[t.tasks, t.locks, 0, 0]);
    page.put_word(&t.ceilings);
    t.entries.put(&mut page);
    t.holdings.put(&mut page);
    page.written()
}
