// The job list's entry: a file's jobs into a lent list, one record a job. Document 01: "The job list goes into a lent
// list".
ghost use Rattle.std.specs.Prelude.{◌≡◌, ◌≤◌, List, ◌++◌, length, take, drop};
ghost use Rattle.notation.specs.Checked.{mapped};
ghost use Rattle.taskfile.specs.Code.Refusals.{outcome};
ghost use Rattle.timing.specs.declared.JobRecord.{JobRecord};
ghost use Rattle.timing.specs.Accepted.{most_jobs};
ghost use Rattle.timing.specs.Code.JobParts.{job_list_of};
ghost use Rattle.timing.specs.ReadEntries.{listed, list_answer, list_after};

use crate::entries::accept_file;
use taskfile::limits::JOBS;
use taskfile::refusals::{Refusal, Refused};
use timing::{JobList, JobRecord, ListAnswer};

// The file's jobs for a list with this room, or the refusal of the file or of the room.
pub fn jobs_for(file: &[u8], room: usize) -> Result<JobList, Refused<u32>>
    ensures { (list : List JobRecord) → length list ≡ room → outcome result ≡ mapped job_list_of (listed file.now list) }
{
    let accepted = accept_file(file)?;
    if room < JOBS {
        return Err(Refusal::Room.at(0));
    }
    Ok(accepted.list)
}

// The jobs go to the start of the list; the records after them keep their contents.
pub fn fill(list: &mut [JobRecord], jobs: &JobList)
    requires { (jobs.now.count ≤ most_jobs) × (jobs.now.count ≤ length list.old) }
    ensures { list.new ≡ take jobs.now.count jobs.now.jobs ++ drop jobs.now.count list.old }
{
    let n = jobs.count as usize;
    list[..n].copy_from_slice(&jobs.jobs[..n]);
}

// The job list's entry: number and place, how many records it wrote, and those records at the start of the list. The
// records after them keep their contents, and a refusal writes none.
pub fn list_jobs(file: &[u8], list: &mut [JobRecord]) -> ListAnswer
    ensures { (result ≡ list_answer file.now list.old)
        × (list.new ≡ list_after file.now list.old) }
{
    match jobs_for(file, list.len()) {
        Ok(jobs) => {
            fill(list, &jobs);
            ListAnswer {
                number: 0,
                place: 0,
                jobs: jobs.count,
            }
        }
        Err(refused) => ListAnswer {
            number: refused.why.number(),
            place: refused.place,
            jobs: 0,
        },
    }
}
