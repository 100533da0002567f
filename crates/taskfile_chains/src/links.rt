// One record of a chain: numbers 2 and 4 at a record, and 3, 5, 2, 4 on following an index to it.
ghost use Rattle.std.specs.Prelude.{◌≡◌};
ghost use Rattle.taskfile.specs.Chains.{record_of, follow};
ghost use Rattle.taskfile.specs.Code.Refusals.{outcome};

use taskfile::limits::RECORD;
use taskfile::refusals::{Refusal, Refused};
use taskfile::{Kind, offsets};
use taskfile_records::fields::{record_in_range, tidy_record};
use taskfile_records::records::byte_at;

// 2 and 4 at a record.
pub fn record_of(file: &[u8], kind: Kind, r: u8) -> Result<(), Refused<u8>>
    ensures { outcome result ≡ record_of kind file.now r }
{
    if byte_at(file, r, offsets::KIND) != kind as u8 {
        return Err(Refusal::Kind.at(r));
    }
    if tidy_record(file, r, kind) && record_in_range(file, r, kind) {
        Ok(())
    } else {
        Err(Refusal::Field.at(r))
    }
}

// Follows an index that the record `holder` holds: 3, 5, 2, 4.
pub fn follow_index(
    file: &[u8],
    kind: Kind,
    allowed: u8,
    again: bool,
    holder: u8,
    index: u8,
) -> Result<(), Refused<u8>>
    ensures { outcome result ≡ follow kind allowed file.now again holder index }
{
    if file.len() / RECORD <= index as usize || again {
        return Err(Refusal::Chain.at(holder));
    }
    if allowed == 0 {
        return Err(Refusal::Count.at(index));
    }
    record_of(file, kind, index)
}
