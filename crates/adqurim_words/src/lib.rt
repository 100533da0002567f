// The words of an answer, stored into those that the caller of the C interface lends.
#![tactic(auto)]

ghost use Rattle.std.specs.Prelude.{◌≡◌, ◌≤◌, [], ◌∷◌, length};
ghost use Rattle.adqurim_words.specs.Words.{
  words_of_sheet,
  words_of_write,
  words_of_read,
  words_of_run,
  words_of_walk,
  run_part,
  sheet_words,
  write_words,
  read_words,
  run_words,
  walk_words,
  filled_with,
};

use machine::RunAnswer;
use sheets::SheetAnswer;
use timing::ReadAnswer;
use walk::WalkAnswer;
use writer::WriteAnswer;

// How many words the sheet, the entries over a table in memory, the reader, a replay and a walk answer.
pub const SHEET_WORDS: usize = 3;

pub const TABLE_WORDS: usize = 3;

pub const WRITE_WORDS: usize = 3;

pub const FILE_WORDS: usize = 3;

pub const TEXT_WORDS: usize = 3;

pub const READ_WORDS: usize = 11;

pub const RUN_WORDS: usize = 43;

pub const WALK_WORDS: usize = 45;

// Where each word stands: number and place first in every answer, then the reader's response times and number of jobs,
// or the size of a sheet or of what was written, or a run's end store, failed jobs and length, and after them a walk's
// verdict and count of moves.
pub const NUMBER: usize = 0;

pub const PLACE: usize = 1;

pub const RESPONSES: usize = 2;

pub const JOBS_WORD: usize = 10;

pub const SIZE_WORD: usize = 2;

pub const STORE_WORD: usize = 2;

pub const FAILED_WORD: usize = 10;

pub const LENGTH_WORD: usize = 42;

pub const VERDICT: usize = 43;

pub const COUNT_WORD: usize = 44;

// The words of the reader's answer.
pub fn put_read(a: ReadAnswer, answer: &mut [u64])
    requires { words_of_read ≤ length answer.old }
    ensures { answer.new ≡ filled_with (read_words a) answer.old }
{
    answer[NUMBER] = u64::from(a.number);
    answer[PLACE] = u64::from(a.place);
    answer[RESPONSES..JOBS_WORD].copy_from_slice(&a.responses);
    answer[JOBS_WORD] = u64::from(a.jobs);
}

// The words of a run's answer.
pub fn put_run(run: RunAnswer, answer: &mut [u64])
    requires { words_of_run ≤ length answer.old }
    ensures { answer.new ≡ filled_with (run_words run) answer.old }
{
    answer[NUMBER] = u64::from(run.number);
    answer[PLACE] = u64::from(run.place);
    answer[STORE_WORD..FAILED_WORD].copy_from_slice(&run.store.map(u64::from));
    answer[FAILED_WORD..LENGTH_WORD].copy_from_slice(&run.failed.map(u64::from));
    answer[LENGTH_WORD] = u64::from(run.length);
}

// What a walk answers of its failing order's run.
fn run_part(x: WalkAnswer) -> RunAnswer
    ensures { result ≡ run_part x }
{
    let store = x.store;
    let failed = x.failed;
    RunAnswer {
        number: x.number,
        place: x.place,
        store,
        failed,
        length: x.length,
    }
}

// The words of a walk's answer: those of the run, then the verdict and the count.
pub fn put_walk(x: WalkAnswer, answer: &mut [u64])
    requires { words_of_walk ≤ length answer.old }
    ensures { answer.new ≡ filled_with (walk_words x) answer.old }
{
    put_run(run_part(x), answer);
    answer[VERDICT] = x.verdict as u64;
    answer[COUNT_WORD] = x.count;
}

// Number, place and size as words.
pub fn put_sized(number: u8, place: u32, size: u32, answer: &mut [u64])
    requires { 3 ≤ length answer.old }
    ensures { answer.new ≡ filled_with (number ∷ place ∷ size ∷ []) answer.old }
{
    answer[NUMBER] = u64::from(number);
    answer[PLACE] = u64::from(place);
    answer[SIZE_WORD] = u64::from(size);
}

// The words of the sheet's answer.
pub fn put_sheet_words(x: SheetAnswer, answer: &mut [u64])
    requires { words_of_sheet ≤ length answer.old }
    ensures { answer.new ≡ filled_with (sheet_words x) answer.old }
{
    put_sized(x.number, x.place, x.length, answer);
}

// The words of an answer of an entry over a table in memory.
pub fn put_write(x: WriteAnswer, answer: &mut [u64])
    requires { words_of_write ≤ length answer.old }
    ensures { answer.new ≡ filled_with (write_words x) answer.old }
{
    put_sized(x.number, x.place, x.length, answer);
}
