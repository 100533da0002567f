// The reader up to number 9.
#![tactic(auto)]

ghost use Rattle.taskfile.specs.File.{load, sized};
ghost use Rattle.taskfile.specs.Code.Refusals.{outcome};
ghost use Rattle.taskfile.specs.Tables.{empty_table};
ghost use Rattle.notation.specs.Checked.{mapped};
ghost use Rattle.std.specs.Prelude.{◌≡◌};

use taskfile::Table;
use taskfile::limits::{BYTES, LOCKS, RECORD, TASKS, VARIABLES};
use taskfile::refusals::{Refusal, Refused};
use taskfile_chains::every_record::read_chains;
use taskfile_judgement::judgement::judge;
use taskfile_records::records::empty_task;
use taskfile_tables::sites::record_at;
use taskfile_tables::tables::table_at;

// Is the length right: not 0, at most 4,096, a multiple of 16?
pub fn is_sized(file: &[u8]) -> bool
    ensures { result ≡ sized file.now }
{
    let n = file.len();
    n != 0 && n <= BYTES && n % RECORD == 0
}

// A table with nothing in it.
pub fn empty_table() -> Table
    ensures { result ≡ empty_table }
{
    Table {
        window: 0,
        store: [0; VARIABLES],
        tasks: 0,
        entries: [empty_task(); TASKS],
        locks: 0,
        ceilings: [0; LOCKS],
        holdings: [0; LOCKS],
    }
}

// The file's table, or the refusal that the file earns, numbers 1 to 9.
pub fn load_file(file: &[u8]) -> Result<Table, Refused<u8>>
    ensures { outcome result ≡ mapped (λ loaded. loaded.table) (load file.now) }
{
    if !is_sized(file) {
        return Err(Refusal::Size.at(0));
    }
    read_chains(file)?;
    let table = table_at(file);
    if let Err(fault) = judge(&table) {
        return Err(fault.why.at(record_at(file, fault.place)));
    }
    Ok(table)
}
