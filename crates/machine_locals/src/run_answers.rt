// What an entry that runs jobs answers.
ghost use Rattle.std.specs.Prelude.{◌≡◌, ℕ, length as count};
ghost use Rattle.notation.specs.Checked.{Checked, mapped};
ghost use Rattle.taskfile.specs.Code.Refusals.{outcome};
ghost use Rattle.machine.specs.Buffers.{Written, run_answer, unwritten};

use machine::{End, RunAnswer};
use taskfile::limits::{JOBS, VARIABLES};
use taskfile::refusals::Refused;

// An end, with so many bytes written; or a refusal: number and place, every other field zero.
pub fn written_answer(r: Result<(End, u32), Refused<u32>>) -> RunAnswer
    ensures { (check : Checked ℕ Written)
        → mapped (λ w. record { 0 = w.ending; 1 = count w.bytes }) check ≡ outcome r → result ≡ run_answer check }
{
    match r {
        Ok((end, length)) => {
            let store = end.store;
            let failed = end.failed;
            RunAnswer {
                number: 0,
                place: 0,
                store,
                failed,
                length,
            }
        }
        Err(e) => RunAnswer {
            number: e.why.number(),
            place: e.place,
            store: [0; VARIABLES],
            failed: [false; JOBS],
            length: 0,
        },
    }
}

// An end with nothing written, or a refusal.
pub fn ended_answer(r: Result<End, Refused<u32>>) -> RunAnswer
    ensures { result ≡ run_answer (unwritten (outcome r)) }
{
    match r {
        Ok(end) => written_answer(Ok((end, 0))),
        Err(e) => written_answer(Err(e)),
    }
}
