// The C interface. Each entry fills words that the caller lends, if there is room for them; the header says what
// each word holds.
#![tactic(auto)]

ghost use Rattle.std.specs.Prelude.{◌≡◌, leb, length};
ghost use Rattle.std.specs.Prelude.{if◌then◌else◌};
ghost use Rattle.adqurim.specs.JobWords.{words_after, entry_after};
ghost use Rattle.adqurim.specs.WriteWords.{lends_enough, write_words_after, write_file_after};
ghost use Rattle.timing.specs.ReadEntries.{read_answer};
ghost use Rattle.order.specs.Replay.{replay_answer};
ghost use Rattle.walk.specs.WalkEntry.{walk_answer, walk_after};
ghost use Rattle.plan.specs.Plans.{plan_answer};
ghost use Rattle.matching.specs.ConversionEntries.{order_to_plan_answer, order_to_plan_after};
ghost use Rattle.matching.specs.ConversionEntries.{plan_to_order_answer, plan_to_order_after};
ghost use Rattle.sheets.specs.Sheets.{sheet_answer, sheet_after};
ghost use Rattle.texts.specs.TextEntries.{to_file_answer, to_file_after, to_text_answer, to_text_after};
ghost use Rattle.adqurim_words.specs.Words.{words_of_read, words_of_run, words_of_walk, read_words, run_words, walk_words};
ghost use Rattle.adqurim_words.specs.Words.{filled_with};
ghost use Rattle.adqurim_words.specs.Words.{words_of_list, words_of_sheet, words_of_write, list_words, sheet_words, write_words};
ghost use Rattle.writer.specs.WriteEntries.{table_answer, table_after};

use adqurim_words::{
    FILE_WORDS, READ_WORDS, RUN_WORDS, SHEET_WORDS, TABLE_WORDS, TEXT_WORDS, WALK_WORDS,
    WRITE_WORDS, put_read, put_run, put_sheet_words, put_walk, put_write,
};
use matching_orders::entries::plan_to_order;
use matching_plans::entries::order_to_plan;
use order_replay::entries::replay;
use plan_check::entries::check_plan;
use sheets_lines::fill_sheet;
use texts_entries::{file_to_text, text_to_file};
use timing::{JobRecord, ListAnswer};
use timing_acceptance::entries::read;
use timing_acceptance::job_list::list_jobs;
use walk_trials::entries::walk_file;
use writer::TABLE_ROOM;
use writer_entries::{fill_table, write_table};
use writer_memory::table_in;

// The reader's entry. Words 0 and 1 are number and place, words 2 to 9 the response times of tasks 0 to 7 (0 past
// the last task), word 10 the number of jobs. It answers whether there was room; without room no word changes.
#[unsafe(no_mangle)]
pub extern "C" fn adqurim_read(file: &[u8], answer: &mut [u64]) -> bool
    ensures room { result ≡ leb words_of_read (length answer.old) }
    ensures words { answer.new
        ≡ filled_with (read_words (read_answer file.now)) answer.old }
{
    if answer.len() < READ_WORDS {
        return false;
    }
    let a = read(file);
    put_read(a, answer);
    true
}

// The replay's entry. Words 0 and 1 are number and place, words 2 to 9 the end store, words 10 to 41 a 1 for each
// failed job, else 0, word 42 how many bytes were written, which is 0. It answers whether there was room; without room
// no word changes.
#[unsafe(no_mangle)]
pub extern "C" fn adqurim_replay(file: &[u8], order: &[u8], answer: &mut [u64]) -> bool
    ensures room { result ≡ leb words_of_run (length answer.old) }
    ensures words { answer.new
        ≡ filled_with (run_words (replay_answer file.now order.now)) answer.old }
{
    if answer.len() < RUN_WORDS {
        return false;
    }
    let run = replay(file, order);
    put_run(run, answer);
    true
}

// The walk's entry. Words 0 to 42 as the replay's (the failing order's end store, failed jobs and length; zeros if
// none fails), word 43 the verdict: 0 none, 1 holds, 2 fails; word 44 the count of moves. The order buffer's first
// 512 bytes hold the failing order and zeros, or zeros alone; see the header. It answers whether there was room for
// the words; without room nothing changes, the order buffer neither.
#[unsafe(no_mangle)]
pub extern "C" fn adqurim_walk(
    file: &[u8],
    allowance: u64,
    order: &mut [u8],
    answer: &mut [u64],
) -> bool
    ensures room { result ≡ leb words_of_walk (length answer.old) }
    ensures words { answer.new
        ≡ filled_with (walk_words (walk_answer file.now allowance order.old))
        answer.old }
    ensures buffer { order.new
        ≡ (if leb words_of_walk (length answer.old)
        then walk_after file.now allowance order.old else order.old) }
{
    if answer.len() < WALK_WORDS {
        return false;
    }
    let x = walk_file(file, allowance, order);
    put_walk(x, answer);
    true
}

// The plan check's entry. The words are as the replay's; nothing is written, so word 42 is 0. It answers whether there
// was room for the words; without room no word changes.
#[unsafe(no_mangle)]
pub extern "C" fn adqurim_check_plan(file: &[u8], plan: &[u8], answer: &mut [u64]) -> bool
    ensures room { result ≡ leb words_of_run (length answer.old) }
    ensures words { answer.new
        ≡ filled_with (run_words (plan_answer file.now plan.now)) answer.old }
{
    if answer.len() < RUN_WORDS {
        return false;
    }
    let checked = check_plan(file, plan);
    put_run(checked, answer);
    true
}

// The entry from an order to a plan. The words are as the replay's, word 42 being the plan's length. The plan buffer's
// first 1,281 bytes hold the plan and zeros after it; a refusal leaves it as it was. It answers whether there was room
// for the words; without room nothing changes, the plan buffer neither.
#[unsafe(no_mangle)]
pub extern "C" fn adqurim_order_to_plan(
    file: &[u8],
    order: &[u8],
    plan: &mut [u8],
    answer: &mut [u64],
) -> bool
    ensures room { result ≡ leb words_of_run (length answer.old) }
    ensures words { answer.new
        ≡ filled_with (run_words (order_to_plan_answer file.now order.now plan.old))
        answer.old }
    ensures buffer { plan.new
        ≡ (if leb words_of_run (length answer.old)
        then order_to_plan_after file.now order.now plan.old else plan.old) }
{
    if answer.len() < RUN_WORDS {
        return false;
    }
    let planned = order_to_plan(file, order, plan);
    put_run(planned, answer);
    true
}

// The entry from a plan to an order. The words are as the replay's, word 42 being the order's length. The order
// buffer's first 512 bytes hold the order and zeros after it; a refusal leaves it as it was. It answers whether there
// was room for the words; without room nothing changes, the order buffer neither.
#[unsafe(no_mangle)]
pub extern "C" fn adqurim_plan_to_order(
    file: &[u8],
    plan: &[u8],
    order: &mut [u8],
    answer: &mut [u64],
) -> bool
    ensures room { result ≡ leb words_of_run (length answer.old) }
    ensures words { answer.new
        ≡ filled_with (run_words (plan_to_order_answer file.now plan.now order.old))
        answer.old }
    ensures buffer { order.new
        ≡ (if leb words_of_run (length answer.old)
        then plan_to_order_after file.now plan.now order.old else order.old) }
{
    if answer.len() < RUN_WORDS {
        return false;
    }
    let ordered = plan_to_order(file, plan, order);
    put_run(ordered, answer);
    true
}

// The sheet's entry. Word 0 is 0, or 20 if the text is below 4,608 bytes, word 1 the place, which is 0, word 2 how many
// bytes the sheet has. The sheet stands at the text's front, and bytes past it never change. It answers whether there
// was room for the words; without room nothing changes, the text neither.
#[unsafe(no_mangle)]
pub extern "C" fn adqurim_sheet(file: &[u8], text: &mut [u8], answer: &mut [u64]) -> bool
    ensures room { result ≡ leb words_of_sheet (length answer.old) }
    ensures words { answer.new
        ≡ filled_with (sheet_words (sheet_answer file.now text.old)) answer.old }
    ensures written { text.new
        ≡ (if leb words_of_sheet (length answer.old)
        then sheet_after file.now text.old else text.old) }
{
    if answer.len() < SHEET_WORDS {
        return false;
    }
    let sheet = fill_sheet(file, text);
    put_sheet_words(sheet, answer);
    true
}

// The table's entry. Word 0 is the number, 1 to 11 for the file or 20 if the table is below 696 bytes, word 1 the
// place, word 2 how many bytes were written, 696. The table's layout is the header's; a refusal leaves it as it was,
// and bytes past it never change. It answers whether there was room for the words; without room nothing changes, the
// table neither.
#[unsafe(no_mangle)]
pub extern "C" fn adqurim_table(file: &[u8], table: &mut [u8], answer: &mut [u64]) -> bool
    ensures room { result ≡ leb words_of_write (length answer.old) }
    ensures words { answer.new
        ≡ filled_with (write_words (table_answer file.now table.old)) answer.old }
    ensures memory { table.new
        ≡ (if leb words_of_write (length answer.old)
        then table_after file.now table.old else table.old) }
{
    if answer.len() < TABLE_WORDS {
        return false;
    }
    let filled = fill_table(file, table);
    put_write(filled, answer);
    true
}

// The writer's entry. Word 0 is the number, 4, 5 or 7 to 11 for the table or 20 if the file is below 2,320 bytes, word
// 1 the place, the index that the record would have had, word 2 how many bytes were written. A refusal leaves the file
// as it was, and bytes past what was written never change. It answers whether there was room for the words and the
// table was whole; else nothing changes, the file neither.
#[unsafe(no_mangle)]
pub extern "C" fn adqurim_write(table: &[u8], file: &mut [u8], answer: &mut [u64]) -> bool
    ensures room { result ≡ lends_enough table.now answer.old }
    ensures words { answer.new
        ≡ write_words_after table.now file.old answer.old }
    ensures written { file.new
        ≡ write_file_after table.now file.old answer.old }
{
    if answer.len() < WRITE_WORDS {
        return false;
    }
    if table.len() < TABLE_ROOM {
        return false;
    }
    let t = table_in(table);
    let x = write_table(t, file);
    put_write(x, answer);
    true
}

// The conversion of a text to a file. Word 0 is the number, 60 to 62 for the text, 4, 5 or 7 to 11 for its table, or 20
// if the file is below 2,320 bytes, word 1 the place, a line of the text, word 2 how many bytes were written. A refusal
// leaves the file as it was, and bytes past what was written never change. It answers whether there was room for the
// words; without room nothing changes, the file neither.
#[unsafe(no_mangle)]
pub extern "C" fn adqurim_text_to_file(text: &[u8], file: &mut [u8], answer: &mut [u64]) -> bool
    ensures room { result ≡ leb words_of_write (length answer.old) }
    ensures words { answer.new
        ≡ filled_with (write_words (to_file_answer text.now file.old)) answer.old }
    ensures written { file.new
        ≡ (if leb words_of_write (length answer.old)
        then to_file_after text.now file.old else file.old) }
{
    if answer.len() < FILE_WORDS {
        return false;
    }
    let x = text_to_file(text, file);
    put_write(x, answer);
    true
}

// The conversion of a file to a text. Word 0 is the number, 1 to 11 for the file or 20 if the text is below 8,192
// bytes, word 1 the place, a record of the file, word 2 how many bytes were written. A refusal leaves the text as it
// was, and bytes past what was written never change. It answers whether there was room for the words; without room
// nothing changes, the text neither.
#[unsafe(no_mangle)]
pub extern "C" fn adqurim_file_to_text(file: &[u8], text: &mut [u8], answer: &mut [u64]) -> bool
    ensures room { result ≡ leb words_of_write (length answer.old) }
    ensures words { answer.new
        ≡ filled_with (write_words (to_text_answer file.now text.old)) answer.old }
    ensures written { text.new
        ≡ (if leb words_of_write (length answer.old)
        then to_text_after file.now text.old else text.old) }
{
    if answer.len() < TEXT_WORDS {
        return false;
    }
    let x = file_to_text(file, text);
    put_write(x, answer);
    true
}

// How many words the job list answers.
const LIST_WORDS: usize = 3;

// The words of the job list's answer, if there is room for them.
pub fn put_list(answer: &mut [u64], from: ListAnswer) -> bool
    ensures { (result ≡ leb words_of_list (length answer.old))
        × (answer.new ≡ filled_with (list_words from) answer.old) }
{
    if answer.len() < LIST_WORDS {
        return false;
    }
    answer[0] = u64::from(from.number);
    answer[1] = u64::from(from.place);
    answer[2] = u64::from(from.jobs);
    true
}

// The job list's entry. Words 0 and 1 are number and place, word 2 how many records were written to the front of the
// list; the records after them keep their contents, and a refusal writes none. It answers whether there was room for
// the words; without room nothing changes, the list neither.
#[unsafe(no_mangle)]
pub extern "C" fn adqurim_jobs(file: &[u8], jobs: &mut [JobRecord], answer: &mut [u64]) -> bool
    ensures { (result ≡ leb words_of_list (length answer.old))
        × (jobs.new ≡ entry_after file.now jobs.old answer.old)
        × (answer.new ≡ words_after file.now jobs.old answer.old) }
{
    let words = answer.len();
    if words < LIST_WORDS {
        return false;
    }
    let listed = list_jobs(file, jobs);
    put_list(answer, listed)
}
