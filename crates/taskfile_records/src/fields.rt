// Number 4 at one record: its unused bytes are zero, and its values are in range.
ghost use Rattle.std.specs.Prelude.{◌≡◌};
ghost use Rattle.taskfile.specs.Records.{zero_from, uses_of, tidy_field, field_in_range};
ghost use Rattle.taskfile.specs.Records.{tidy_instruction, fields_in_range, choice_in_range, instruction_in_range};
ghost use Rattle.taskfile.specs.Records.{tidy, in_range};
ghost use Rattle.taskfile.specs.Code.RecordFields.{limit_of, field_of};

use crate::records::{byte_at, instruction_at, wide_at};
use taskfile::limits::{
    HIGHEST_CEILING, MOST_OPERATIONS, MOST_REGISTERS, MOST_VARIABLES, OPERATIONS, RECORD,
};
use taskfile::operations::PICK;
use taskfile::{Field, Instruction, Kind, offsets};

// Are the n bytes of record r from byte k on zero? Those past the file's end are. Whether it ends before them is
// tested first, so that the number of bytes tested is n, which each caller knows.
pub fn zero_from(file: &[u8], r: u8, k: u8, n: u8) -> bool
    ensures { result ≡ zero_from file.now r k n }
{
    let start = RECORD * (r as usize) + (k as usize);
    let end = start + (n as usize);
    if end <= file.len() {
        return file[start..end].iter().all(|&byte| byte == 0);
    }
    let start = start.min(file.len());
    file[start..].iter().all(|&byte| byte == 0)
}

// The largest value of a field by what the operation uses it for, or 0 where it is unused. "lock numbers are left to
// 9", so one may be any byte here.
const UNUSED: u8 = 0;

const REGISTER: u8 = MOST_REGISTERS - 1;

const VARIABLE: u8 = MOST_VARIABLES - 1;

const ANY_BYTE: u8 = 255;

const SMALL: u8 = 15;

const LOCK_NUMBER: u8 = ANY_BYTE;

// How the operations 0 to 11 use field a, then field b, then field c. By field, so that a field that is known has
// twelve bytes in a row.
const LIMITS: [u8; 3 * OPERATIONS] = [
    // field a
    UNUSED, // End
    REGISTER, // Load
    VARIABLE, // Store
    REGISTER, // Set
    REGISTER, // Add
    REGISTER, // Subtract
    REGISTER, // Skip if less
    REGISTER, // Skip if equal
    REGISTER, // Pick
    LOCK_NUMBER, // Acquire
    LOCK_NUMBER, // Release
    REGISTER, // Assert
    // field b
    UNUSED, // End
    VARIABLE, // Load
    REGISTER, // Store
    ANY_BYTE, // Set
    REGISTER, // Add
    REGISTER, // Subtract
    REGISTER, // Skip if less
    REGISTER, // Skip if equal
    SMALL, // Pick
    UNUSED, // Acquire
    UNUSED, // Release
    UNUSED, // Assert
    // field c
    UNUSED, // End
    UNUSED, // Load
    UNUSED, // Store
    UNUSED, // Set
    UNUSED, // Add
    UNUSED, // Subtract
    SMALL, // Skip if less
    SMALL, // Skip if equal
    SMALL, // Pick
    UNUSED, // Acquire
    UNUSED, // Release
    UNUSED, // Assert
];

// The largest value of a field of an operation.
pub fn limit(operation: u8, field: Field) -> u8
    ensures { result ≡ limit_of (field_of field (uses_of operation)) }
{
    let o = operation as usize;
    if o < OPERATIONS {
        LIMITS[OPERATIONS * (field as usize) + o]
    } else {
        UNUSED
    }
}

// Is a field zero, if the operation does not use it?
pub fn tidy_field(operation: u8, field: Field, x: u8) -> bool
    ensures { result ≡ tidy_field (field_of field (uses_of operation)) x }
{
    limit(operation, field) != UNUSED || x == 0
}

// Is a field in range, if the operation uses it?
pub fn field_in_range(operation: u8, field: Field, x: u8) -> bool
    ensures { result ≡ field_in_range (field_of field (uses_of operation)) x }
{
    let most = limit(operation, field);
    most == UNUSED || x <= most
}

#[tactic(auto, unfolding(taskfile::specs::Records::tidy_instruction, taskfile::specs::Code::RecordFields::field_of))]
pub fn tidy_instruction(i: Instruction) -> bool
    ensures { result ≡ tidy_instruction i }
{
    tidy_field(i.operation, Field::A, i.a)
        && tidy_field(i.operation, Field::B, i.b)
        && tidy_field(i.operation, Field::C, i.c)
}

#[tactic(auto, unfolding(taskfile::specs::Records::fields_in_range, taskfile::specs::Records::operation_uses, taskfile::specs::Code::RecordFields::field_of))]
pub fn fields_in_range(i: Instruction) -> bool
    ensures { result ≡ fields_in_range i }
{
    i.operation < MOST_OPERATIONS
        && field_in_range(i.operation, Field::A, i.a)
        && field_in_range(i.operation, Field::B, i.b)
        && field_in_range(i.operation, Field::C, i.c)
}

// Is a Pick's lowest value c at most its highest value b?
#[tactic(auto, unfolding(taskfile::specs::Records::choice_in_range))]
pub fn choice_in_range(i: Instruction) -> bool
    ensures { result ≡ choice_in_range i }
{
    i.operation != PICK || i.c <= i.b
}

#[tactic(auto, unfolding(taskfile::specs::Records::instruction_in_range))]
pub fn instruction_in_range(i: Instruction) -> bool
    ensures { result ≡ instruction_in_range i }
{
    fields_in_range(i) && choice_in_range(i)
}

// Are the unused bytes of a record of this kind zero?
#[tactic(auto, unfolding(taskfile::specs::Records::tidy))]
pub fn tidy_record(file: &[u8], r: u8, kind: Kind) -> bool
    ensures { result ≡ tidy file.now r kind }
{
    match kind {
        Kind::Header => byte_at(file, r, offsets::NEXT) == 0,
        Kind::TaskRecord => byte_at(file, r, offsets::TASK_UNUSED) == 0,
        Kind::LockRecord => {
            byte_at(file, r, offsets::LOCK_UNUSED) == 0
                && zero_from(
                    file,
                    r,
                    offsets::LOCK_UNUSED_LAST,
                    offsets::LOCK_UNUSED_LAST_BYTES,
                )
        }
        Kind::InstructionRecord => {
            tidy_instruction(instruction_at(file, r))
                && zero_from(
                    file,
                    r,
                    offsets::INSTRUCTION_UNUSED,
                    offsets::INSTRUCTION_UNUSED_BYTES,
                )
        }
    }
}

// Are the values of a record of this kind in range?
#[tactic(auto, unfolding(taskfile::specs::Records::in_range))]
pub fn record_in_range(file: &[u8], r: u8, kind: Kind) -> bool
    ensures { result ≡ in_range file.now r kind }
{
    match kind {
        Kind::Header => 1 <= wide_at(file, r, offsets::WINDOW),
        Kind::TaskRecord => {
            let execution = wide_at(file, r, offsets::EXECUTION);
            1 <= execution && execution <= wide_at(file, r, offsets::PERIOD)
        }
        Kind::LockRecord => byte_at(file, r, offsets::CEILING) <= HIGHEST_CEILING,
        Kind::InstructionRecord => instruction_in_range(instruction_at(file, r)),
    }
}
