// The walk's entry.
ghost use Rattle.std.specs.Prelude.{◌≡◌, length};
ghost use Rattle.notation.specs.Checked.{mapped};
ghost use Rattle.notation.specs.Lists.{padded};
ghost use Rattle.taskfile.specs.Code.Refusals.{outcome};
ghost use Rattle.timing.specs.Code.AcceptParts.{accepted_file};
ghost use Rattle.walk.specs.WalkEntry.{admitted, walk_answer, walk_after};
ghost use Rattle.walk_trials.specs.Code.WalkParts.{WalkOf};

use crate::trials::trial;
use crate::{Outcome, ended, outcome_answer, outcome_of, refused_walk, shown_length};
use notation_buffers::pages::Page;
use order_lending::lend;
use order_replay::ends::finished;
use order_states::{LAST_STEP, ORDER_ROOM};
use taskfile::refusals::{Refusal, Refused};
use timing::{AcceptedFile, ListedTable};
use timing_acceptance::entries::accept_file;
use walk::WalkAnswer;

// The walk of a table's jobs. The bytes of an order found stand at the front of the path. The first state's moves are
// tried from here, so that the compiler keeps `trial` a function and makes a jump of its last call.
pub fn walk_table(listed: &ListedTable, allowance: u64, path: &mut [u8; ORDER_ROOM]) -> Outcome
    ensures { WalkOf listed.now.table listed.now.list allowance path.old path.new result }
{
    let lent = lend(listed);
    let mut start = lent.start;
    let mut count: u64 = 0;
    let r = if finished(&lent.program, &start.bytes) {
        ended(&start.bytes, 0)
    } else {
        trial(&lent, &mut start, LAST_STEP, allowance, &mut count, path)
    };
    outcome_of(r, count, &start.bytes).outcome
}

// What there is to walk: the file's refusal, then 20, or what was accepted.
pub fn admitted(file: &[u8], out: &[u8]) -> Result<AcceptedFile, Refused<u32>>
    ensures { outcome result ≡ mapped accepted_file (admitted file.now out.now) }
{
    let accepted = accept_file(file)?;
    if out.len() < ORDER_ROOM {
        return Err(Refusal::Room.at(0));
    }
    Ok(accepted)
}

// Fills a buffer: an order's bytes, and zeros after them.
pub fn show(order: &[u8], out: &mut [u8])
    ensures { out.new ≡ padded (length out.old) 0 order.now }
{
    let mut page = Page::new(out);
    page.put_word(order);
    page.clear_rest();
}

// The walk's entry: the file's numbers, then 20, then 21 or the verdict. The buffer's first 512 bytes hold the failing
// order and zeros after it, or zeros alone.
pub fn walk_file(file: &[u8], allowance: u64, out: &mut [u8]) -> WalkAnswer
    ensures answer { result ≡ walk_answer file.now allowance out.old }
    ensures buffer { out.new ≡ walk_after file.now allowance out.old }
{
    match admitted(file, out) {
        Err(e) => refused_walk(e.why.number(), e.place),
        Ok(accepted) => {
            let mut path = [0u8; ORDER_ROOM];
            let listed = ListedTable {
                table: accepted.table,
                list: accepted.list,
            };
            let r = walk_table(&listed, allowance, &mut path);
            show(&path[..shown_length(r)], &mut out[..ORDER_ROOM]);
            outcome_answer(r)
        }
    }
}
