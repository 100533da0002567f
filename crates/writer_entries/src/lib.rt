// The entries over a table in memory: a file's table in memory, and a file written from a table. Document 02, E2.
#![tactic(auto)]

ghost use Rattle.std.specs.Prelude.{◌≡◌, ℕ, ◌<◌, List, length as count};
ghost use Rattle.notation.specs.Checked.{Checked, mapped};
ghost use Rattle.taskfile.specs.Code.Refusals.{number_of, outcome};
ghost use Rattle.writer.specs.WriteEntries.{answer_of, written, write_answer, write_after};
ghost use Rattle.writer.specs.WriteEntries.{tabled, table_answer, table_after};

use taskfile::Table;
use taskfile::refusals::{Refusal, Refused};
use timing_acceptance::entries::accept_file;
use writer::{FILE_ROOM, LAYOUT_ROOM, TABLE_ROOM, WriteAnswer};
use writer_layout::layouts::put_layout;
use writer_memory::put_table;

// The answer of a table or a file that is refused.
pub fn refused_write(number: u8, place: u32) -> WriteAnswer
    ensures { result ≡ record { number = number; place = place; length = 0 } }
{
    WriteAnswer {
        number,
        place,
        length: 0,
    }
}

// The answer of a table or a file that is refused at a record.
pub fn refused_record(number: u8, place: u8) -> WriteAnswer
    ensures answer { result ≡ record { number = number; place = place; length = 0 } }
    ensures small { result.place < 256 }
{
    refused_write(number, u32::from(place))
}

// The answer where a call is refused: number and place, and nothing written.
pub fn refused(e: Refused<u32>) -> WriteAnswer
    ensures { result ≡ record { number = number_of e.why; place = e.place; length = 0 } }
{
    WriteAnswer {
        number: e.why.number(),
        place: e.place,
        length: 0,
    }
}

// What was written, or why nothing was, as the answer: number and place, and every other field zero on a refusal.
pub fn answered(r: Result<u32, Refused<u8>>) -> WriteAnswer
    ensures answer { (check : Checked ℕ (List ℕ)) → mapped count check ≡ outcome r → result ≡ answer_of check }
    ensures small { result.place < 256 }
{
    match r {
        Ok(length) => WriteAnswer {
            number: 0,
            place: 0,
            length,
        },
        Err(e) => refused(e.why.at(u32::from(e.place))),
    }
}

// Writes a table's file, and answers its length. The table is laid out apart and handed to the reader, whose number and
// place are the table's own.
pub fn write_file(t: Table, file: &mut [u8]) -> Result<u32, Refused<u8>>
    ensures answer { outcome result ≡ mapped count (written t file.old) }
    ensures written { file.new ≡ write_after t file.old }
{
    let mut laid = [0u8; LAYOUT_ROOM];
    let n = put_layout(t, &mut laid);
    let _accepted = accept_file(&laid[..n])?;
    if file.len() < FILE_ROOM {
        return Err(Refusal::Room.at(0));
    }
    file[..n].copy_from_slice(&laid[..n]);
    Ok(n as u32)
}

// The writer's entry.
pub fn write_table(t: Table, file: &mut [u8]) -> WriteAnswer
    ensures answer { result ≡ write_answer t file.old }
    ensures written { file.new ≡ write_after t file.old }
    ensures small { result.place < 256 }
{
    answered(write_file(t, file))
}

// Writes a file's table into lent memory, and answers its length there.
pub fn write_memory(file: &[u8], memory: &mut [u8]) -> Result<u32, Refused<u8>>
    ensures answer { outcome result ≡ mapped count (tabled file.now memory.old) }
    ensures written { memory.new ≡ table_after file.now memory.old }
{
    let accepted = accept_file(file)?;
    if memory.len() < TABLE_ROOM {
        return Err(Refusal::Room.at(0));
    }
    let n = put_table(accepted.table, memory);
    Ok(n as u32)
}

// The table's entry: a file's table in lent memory.
pub fn fill_table(file: &[u8], memory: &mut [u8]) -> WriteAnswer
    ensures answer { result ≡ table_answer file.now memory.old }
    ensures written { memory.new ≡ table_after file.now memory.old }
{
    answered(write_memory(file, memory))
}
