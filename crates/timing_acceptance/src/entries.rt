// What every entry has of a file, and the reader's entry.
ghost use Rattle.std.specs.Prelude.{◌≡◌};
ghost use Rattle.notation.specs.Checked.{mapped};
ghost use Rattle.taskfile.specs.Code.Refusals.{outcome};
ghost use Rattle.timing.specs.Accepted.{accept};
ghost use Rattle.timing.specs.Code.AcceptParts.{accepted_file};
ghost use Rattle.timing.specs.ReadEntries.{read_answer};
ghost use Rattle.timing_acceptance.specs.Code.ReadParts.{refused_read};
ghost use Rattle.timing_acceptance.specs.Code.TimedParts.{timed_file};

use taskfile::Table;
use taskfile::limits::{MOST_TOTAL, TASKS};
use taskfile::refusals::{Refusal, Refused};
use taskfile_reader::load_file;
use taskfile_tables::sites::record_at;
use timing::{AcceptedFile, ReadAnswer};
use timing_jobs::{job_total, jobs_of};
use timing_response::response::responses_of;

// The table of a file that is accepted, with its response times and how many jobs it has.
#[derive(Clone, Copy)]
pub struct TimedFile {
    pub table: Table,
    pub responses: [u64; TASKS],
    pub jobs: u8,
}

// The file's table with its response times and the number of its jobs, or the first refusal that the file earns,
// numbers 1 to 11.
pub fn time_file(file: &[u8]) -> Result<TimedFile, Refused<u8>>
    ensures { outcome result ≡ mapped timed_file (accept file.now) }
{
    let table = load_file(file)?;
    let responses = match responses_of(&table) {
        Ok(responses) => responses,
        Err(late) => return Err(late.why.at(record_at(file, late.place))),
    };
    let total = job_total(&table);
    if MOST_TOTAL < total {
        return Err(Refusal::Jobs.at(0));
    }
    Ok(TimedFile {
        table,
        responses,
        jobs: total as u8,
    })
}

// The file's table with its response times and its jobs, or the first refusal that the file earns, numbers 1 to 11.
pub fn accept_file(file: &[u8]) -> Result<AcceptedFile, Refused<u8>>
    ensures { outcome result ≡ mapped accepted_file (accept file.now) }
{
    let timed = time_file(file)?;
    let list = jobs_of(&timed.table, &timed.responses);
    let accepted = AcceptedFile {
        table: timed.table,
        responses: timed.responses,
        list,
    };
    Ok(accepted)
}

// The reader's answer to a file that is refused: number and place, and every other field zero.
pub fn refused_read(number: u8, place: u8) -> ReadAnswer
    ensures { result ≡ refused_read number place }
{
    ReadAnswer {
        number,
        place: u32::from(place),
        responses: [0; TASKS],
        jobs: 0,
    }
}

// The reader's entry: number and place, the response times and the number of jobs. It lists no job.
pub fn read(file: &[u8]) -> ReadAnswer
    ensures { result ≡ read_answer file.now }
{
    match time_file(file) {
        Ok(timed) => {
            let responses = timed.responses;
            ReadAnswer {
                number: 0,
                place: 0,
                responses,
                jobs: timed.jobs,
            }
        }
        Err(refused) => refused_read(refused.why.number(), refused.place),
    }
}
