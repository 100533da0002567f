// What an entry that runs jobs answers, by its parts.
ghost use Rattle.std.specs.Prelude.{◌≡◌, ℕ, List, length as count};
ghost use Rattle.notation.specs.Checked.{refused, passed};
ghost use Rattle.machine.specs.Buffers.{run_answer, unwritten};

use machine::RunAnswer;
use taskfile::limits::{JOBS, VARIABLES};

// A refusal by any number: number and place, every other field zero.
pub fn refused_run(number: u8, place: u32) -> RunAnswer
    ensures { result ≡ run_answer (refused number place) }
{
    RunAnswer {
        number,
        place,
        store: [0; VARIABLES],
        failed: [false; JOBS],
        length: 0,
    }
}

// An end, with so many bytes written.
pub fn written_run(store: [u8; VARIABLES], failed: [bool; JOBS], length: u32) -> RunAnswer
    ensures { (bytes : List ℕ) → count bytes ≡ length
        → result ≡ run_answer (passed (record { ending = record { store = store; failed = failed }; bytes = bytes })) }
{
    RunAnswer {
        number: 0,
        place: 0,
        store,
        failed,
        length,
    }
}

// An end, with nothing written.
pub fn ended_run(store: [u8; VARIABLES], failed: [bool; JOBS]) -> RunAnswer
    ensures { result ≡ run_answer (unwritten (passed (record { store = store; failed = failed }))) }
{
    written_run(store, failed, 0)
}
