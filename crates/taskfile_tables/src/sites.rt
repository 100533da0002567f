// The record at a site of a file's table, by following indices.
ghost use Rattle.std.specs.Prelude.{◌≡◌};
ghost use Rattle.taskfile.specs.Code.ReadingParts.{link_after, site_record};

use taskfile::{Site, offsets};
use taskfile_chains::chains::{index_at, next_at};

// The record that n links lead to from `index`.
pub fn link_after(file: &[u8], index: u8, n: u8) -> u8
    ensures { result ≡ link_after file.now index n }
{
    let mut at = index;
    for i in 0..n {
        at = next_at(file, at);
    }
    at
}

// The record at a site of the file's table.
pub fn record_at(file: &[u8], site: Site) -> u8
    ensures { result ≡ site_record file.now site }
{
    match site {
        Site::AtHeader => 0,
        Site::AtTask(i) => link_after(file, index_at(file, 0, offsets::FIRST_TASK), i.0),
        Site::AtInstruction(i, p) => {
            let task = link_after(file, index_at(file, 0, offsets::FIRST_TASK), i.0);
            link_after(file, index_at(file, task, offsets::FIRST_INSTRUCTION), p)
        }
        Site::AtLock(l) => link_after(file, index_at(file, 0, offsets::FIRST_LOCK), l),
    }
}
