// Chains of records: a body, the tasks, each followed by its body, and the locks. Each reader calls itself on the next
// index, and a flag for each record, whether it was reached, is lent to it. Document 01: "The chain reader keeps the
// lent file together with its present index". Here and in `every_record`, `tables` and `sites` each index that is
// followed is read by `index_at` or `next_at`, which make a `ChainReader`.
ghost use Rattle.std.specs.Prelude.{◌≡◌, List, ℕ};
ghost use Rattle.taskfile.specs.Chains.{chain, body_chain, task_chains, records_of};
ghost use Rattle.taskfile.specs.Code.Reading.{seen_of, ChainedAs};
ghost use Rattle.taskfile.specs.Code.Refusals.{outcome};
ghost use Rattle.taskfile.specs.Records.{byte_at, next};

use crate::links::follow_index;
use taskfile::limits::{MOST_INSTRUCTIONS, RECORDS};
use taskfile::refusals::{Refusal, Refused};
use taskfile::{Kind, offsets};
use taskfile_records::records::byte_at;

// The lent file together with the present index in it.
#[derive(Clone, Copy)]
pub struct ChainReader<'a> {
    pub file: &'a [u8],
    pub index: u8,
}

// A reader at a record.
pub fn reader_at<'a>(file: &'a [u8], index: u8) -> ChainReader<'a>
    ensures { (result.file ≡ file.entry) × (result.index ≡ index) }
{
    ChainReader { file, index }
}

// The index that byte k of the present record holds.
pub fn held_index<'a>(reader: ChainReader<'a>, k: u8) -> u8
    ensures { result ≡ byte_at reader.entry.file.now reader.entry.index k }
{
    byte_at(reader.file, reader.index, k)
}

// A reader at the next record of the chain, to which byte 1 of the present record leads.
pub fn next_record<'a>(reader: ChainReader<'a>) -> ChainReader<'a>
    ensures { (result.file ≡ reader.entry.file)
        × (result.index ≡ next reader.entry.file.now reader.entry.index) }
{
    ChainReader {
        file: reader.file,
        index: held_index(reader, offsets::NEXT),
    }
}

// The index that byte k of a record holds, read by a reader at that record.
pub fn index_at(file: &[u8], index: u8, k: u8) -> u8
    ensures { result ≡ byte_at file.now index k }
{
    held_index(reader_at(file, index), k)
}

// The index to which a reader at a record moves on.
pub fn next_at(file: &[u8], index: u8) -> u8
    ensures { result ≡ next file.now index }
{
    let reader = next_record(reader_at(file, index));
    reader.index
}

// Reads a chain of records of one kind from an index that `holder` holds, and notes its records. It calls itself on
// the next index, and the records still allowed fall. What a refusal leaves of these flags is not said.
pub fn read_chain(
    file: &[u8],
    kind: Kind,
    allowed: u8,
    seen: &mut [bool; RECORDS],
    holder: u8,
    index: u8,
) -> Result<(), Refused<u8>>
    ensures { (reached : List ℕ) → seen.old ≡ seen_of reached
        → ChainedAs (λ l. l) (outcome result) seen.new reached
        (chain kind allowed file.now reached holder index) }
{
    if index == 0 {
        return Ok(());
    }
    let at = index as usize;
    follow_index(file, kind, allowed, seen[at], holder, index)?;
    seen[at] = true;
    read_chain(file, kind, allowed - 1, seen, index, next_at(file, index))
}

// The body of the task whose record is `holder`.
pub fn read_body(file: &[u8], seen: &mut [bool; RECORDS], holder: u8) -> Result<(), Refused<u8>>
    ensures { (reached : List ℕ) → seen.old ≡ seen_of reached
        → ChainedAs (λ l. l) (outcome result) seen.new reached (body_chain file.now reached holder) }
{
    let first = index_at(file, holder, offsets::FIRST_INSTRUCTION);
    if first == 0 {
        return Err(Refusal::Count.at(holder));
    }
    read_chain(
        file,
        Kind::InstructionRecord,
        MOST_INSTRUCTIONS,
        seen,
        holder,
        first,
    )
}

// Reads the tasks' chain, each task followed by its body, and notes their records.
pub fn read_tasks(
    file: &[u8],
    allowed: u8,
    seen: &mut [bool; RECORDS],
    holder: u8,
    index: u8,
) -> Result<(), Refused<u8>>
    ensures { (reached : List ℕ) → seen.old ≡ seen_of reached
        → ChainedAs records_of (outcome result) seen.new reached
        (task_chains allowed file.now reached holder index) }
{
    if index == 0 {
        return Ok(());
    }
    let at = index as usize;
    follow_index(file, Kind::TaskRecord, allowed, seen[at], holder, index)?;
    seen[at] = true;
    read_body(file, seen, index)?;
    read_tasks(file, allowed - 1, seen, index, next_at(file, index))
}
