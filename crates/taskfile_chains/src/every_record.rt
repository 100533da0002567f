// The whole walk of records, numbers 2 to 6: header, each task followed by its body, then locks, and no record left
// over.
ghost use Rattle.std.specs.Prelude.{◌≡◌, not, List, ℕ, ◌≤◌, length};
ghost use Rattle.taskfile.specs.Chains.{chains_of};
ghost use Rattle.notation.specs.Checked.{none_of, bare};
ghost use Rattle.notation.specs.Lists.{up_to, member};
ghost use Rattle.taskfile.specs.Code.Reading.{seen_of};
ghost use Rattle.taskfile.specs.Code.Refusals.{outcome};
ghost use Rattle.taskfile.specs.Records.{records};

use crate::chains::{index_at, read_chain, read_tasks};
use crate::links::record_of;
use taskfile::limits::{MOST_LOCKS, MOST_TASKS, RECORD, RECORDS};
use taskfile::refusals::{Refusal, Refused};
use taskfile::{Kind, offsets};

// 6: the lowest record that was never reached.
pub fn no_stray(file: &[u8], seen: &[bool; RECORDS]) -> Result<(), Refused<u8>>
    requires { length file.now ≤ 4096 }
    ensures { (reached : List ℕ) → seen.now ≡ seen_of reached
        → outcome result ≡ none_of 6 (λ r. not (member r reached)) (up_to (records file.now)) }
{
    for r in 0..file.len() / RECORD {
        if !seen[r] {
            return Err(Refusal::Stray.at(r as u8));
        }
    }
    Ok(())
}

// The whole walk of records: header, each task followed by its body, then locks, then 6.
pub fn read_chains(file: &[u8]) -> Result<(), Refused<u8>>
    requires { length file.now ≤ 4096 }
    ensures { outcome result ≡ bare (chains_of file.now) }
{
    record_of(file, Kind::Header, 0)?;
    let first = index_at(file, 0, offsets::FIRST_TASK);
    if first == 0 {
        return Err(Refusal::Count.at(0));
    }
    let mut seen = [false; RECORDS];
    seen[0] = true;
    read_tasks(file, MOST_TASKS, &mut seen, 0, first)?;
    read_chain(
        file,
        Kind::LockRecord,
        MOST_LOCKS,
        &mut seen,
        0,
        index_at(file, 0, offsets::FIRST_LOCK),
    )?;
    no_stray(file, &seen)
}
