// The forms of a line: which one a word names, at which stages it may come, how many numbers it has, and how large.
ghost use Rattle.std.specs.Prelude.{◌≡◌, ◌<◌, length, get_or, take};
ghost use Rattle.texts.specs.Grammar.{row_of, may_come, fits};
ghost use Rattle.texts.specs.Reading.{form_named};
ghost use Rattle.texts.specs.Code.LineParts.{named_of};
ghost use Rattle.texts_reading.specs.Code.FormParts.{stage_number, operation_named};

use crate::numerals::is_word;
use taskfile::limits::OPERATIONS;
use texts::{Form, NUMBERS};

// How far a text has come: the window is due; the start values are due; a task or a lock may come; after a task line,
// an instruction too; after a lock, locks alone.
#[derive(Clone, Copy, PartialEq, Eq, PartialOrd, Ord)]
pub enum Stage {
    Window,
    Start,
    Tasks,
    Body,
    Locks,
}

// The words that lines of the other forms begin with.
const WINDOW: &[u8] = b"window";

const START: &[u8] = b"start";

const TASK: &[u8] = b"task";

const LOCK: &[u8] = b"lock";

// An operation's line: its name, and how many of the fields a, b and c it has.
#[derive(Clone, Copy)]
pub struct OperationLine {
    pub name: &'static [u8],
    pub fields: usize,
}

// The operations' lines in the order of their numbers.
const OPERATION_LINES: [OperationLine; OPERATIONS] = [
    OperationLine {
        name: b"end",
        fields: 0,
    },
    OperationLine {
        name: b"load",
        fields: 2,
    },
    OperationLine {
        name: b"store",
        fields: 2,
    },
    OperationLine {
        name: b"set",
        fields: 2,
    },
    OperationLine {
        name: b"add",
        fields: 2,
    },
    OperationLine {
        name: b"subtract",
        fields: 2,
    },
    OperationLine {
        name: b"less",
        fields: 3,
    },
    OperationLine {
        name: b"equal",
        fields: 3,
    },
    OperationLine {
        name: b"pick",
        fields: 3,
    },
    OperationLine {
        name: b"acquire",
        fields: 1,
    },
    OperationLine {
        name: b"release",
        fields: 1,
    },
    OperationLine {
        name: b"assert",
        fields: 1,
    },
];

// How many fields a line has.
const WINDOW_FIELDS: usize = 1;

const TASK_FIELDS: usize = 3;

const LOCK_FIELDS: usize = 2;

// A field holds numbers below its limit: a byte, or 32 bits.
const BYTE_FIELD: u64 = 256;

const WIDE_FIELD: u64 = 4294967296;

// The place of an operation's line in the table above: End's past the operations.
pub fn operation_row(operation: u8) -> usize
    ensures { (result < 12) × (row_of (Form.InstructionLine result) ≡ row_of (Form.InstructionLine operation)) }
{
    let o = operation as usize;
    if o < OPERATIONS { o } else { 0 }
}

// An operation's line. One above 11 is taken as End.
pub fn operation_line(operation: u8) -> OperationLine
    ensures name { result.name.now ≡ (row_of (Form.InstructionLine operation)).word }
    ensures fields { result.fields ≡ length (row_of (Form.InstructionLine operation)).fields }
{
    OPERATION_LINES[operation_row(operation)]
}

// The form of an instruction by its name.
fn operation_named(word: &[u8]) -> Option<Form>
    ensures { result ≡ named_of (operation_named word.now) }
{
    match OPERATION_LINES.iter().position(|line| line.name == word) {
        Some(operation) => Some(Form::InstructionLine(operation as u8)),
        None => None,
    }
}

// The form whose lines begin with a word.
pub fn form_named(word: &[u8]) -> Option<Form>
    ensures { result ≡ named_of (form_named word.now) }
{
    if is_word(word, WINDOW) {
        Some(Form::WindowLine)
    } else if is_word(word, START) {
        Some(Form::StartLine)
    } else if is_word(word, TASK) {
        Some(Form::TaskLine)
    } else if is_word(word, LOCK) {
        Some(Form::LockLine)
    } else {
        operation_named(word)
    }
}

// How many fields a line of a form has.
pub fn field_count(form: Form) -> usize
    ensures { result ≡ length (row_of form).fields }
{
    match form {
        Form::WindowLine => WINDOW_FIELDS,
        Form::StartLine => NUMBERS,
        Form::TaskLine => TASK_FIELDS,
        Form::InstructionLine(operation) => operation_line(operation).fields,
        Form::LockLine => LOCK_FIELDS,
    }
}

// The first and the last stage at which a line of a form may come.
fn stages_of(form: Form) -> (Stage, Stage)
    ensures earliest { stage_number result.0 ≡ (row_of form).earliest }
    ensures latest { stage_number result.1 ≡ (row_of form).latest }
{
    match form {
        Form::WindowLine => (Stage::Window, Stage::Window),
        Form::StartLine => (Stage::Start, Stage::Start),
        Form::TaskLine => (Stage::Tasks, Stage::Body),
        Form::InstructionLine(_) => (Stage::Body, Stage::Body),
        Form::LockLine => (Stage::Tasks, Stage::Locks),
    }
}

// May a line of a form come at this stage?
pub fn may_come(form: Form, stage: u8) -> bool
    ensures { result ≡ may_come stage (row_of form) }
{
    let (earliest, latest) = stages_of(form);
    earliest as u8 <= stage && stage <= latest as u8
}

// The stage after a line of a form.
pub fn stage_after(form: Form) -> Stage
    ensures { stage_number result ≡ (row_of form).stage }
{
    match form {
        Form::WindowLine => Stage::Start,
        Form::StartLine => Stage::Tasks,
        Form::TaskLine => Stage::Body,
        Form::InstructionLine(_) => Stage::Body,
        Form::LockLine => Stage::Locks,
    }
}

// The limit of field k of a form.
fn field_limit(form: Form, k: usize) -> u64
    requires { k < length (row_of form).fields }
    ensures { result ≡ get_or (row_of form).fields k 0 }
{
    match form {
        Form::WindowLine => WIDE_FIELD,
        Form::StartLine => BYTE_FIELD,
        Form::TaskLine => WIDE_FIELD,
        Form::InstructionLine(_) => BYTE_FIELD,
        Form::LockLine => { if k == 0 { BYTE_FIELD } else { WIDE_FIELD } }
    }
}

// Do the first numbers, one for each field of a form, fit the fields?
pub fn numbers_fit(form: Form, values: [u64; NUMBERS]) -> bool
    ensures { result ≡ fits (row_of form).fields (take (length (row_of form).fields) values) }
{
    (0..field_count(form)).all(|k| values[k] < field_limit(form, k))
}
