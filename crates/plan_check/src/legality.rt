// Numbers 43 to 45, and how a legal plan ends.
ghost use Rattle.std.specs.Prelude.{◌≡◌, ◌+◌, ◌*◌, ◌≤◌, ◌<◌, length, IfOk};
ghost use Rattle.notation.specs.Lists.{last_or};
ghost use Rattle.plan.specs.Runs.{guess};
ghost use Rattle.plan_check.specs.Code.Faults.{fault_then};
ghost use Rattle.plan_marks.specs.Code.Marks.{stores_in};
ghost use Rattle.plan_marks.specs.Code.PairParts.{due_store_in, guess_fault_in, legality_in};
ghost use Rattle.taskfile.specs.Code.Refusals.{outcome};
ghost use Rattle.timing.specs.Accepted.{most_jobs};

use notation::bytes::bytes_at;
use plan::Round;
use plan_marks::rounds::store_of;
use plan_marks::{GUESSES, STORES};
use plan_pairs::pair_rules::Marked;
use plan_pairs::pairs::pair_fault;
use taskfile::limits::VARIABLES;
use taskfile::refusals::{Refusal, Refused};

// The guess of round r.
pub fn guess_of(plan: &[u8], r: Round) -> [u8; VARIABLES]
    requires { (r.0 < most_jobs) × (9 + 8 * r.0 ≤ length plan.now) }
    ensures { result ≡ guess plan.now r }
{
    bytes_at(plan, GUESSES + VARIABLES * usize::from(r.0))
}

// The store that round r must start from, of k rounds: the initial store, then the store left in the round before.
pub fn due_store(store: [u8; VARIABLES], stores: &[u8; STORES], k: u8, r: Round) -> [u8; VARIABLES]
    requires { (k ≤ most_jobs) × (r.0 ≤ k) }
    ensures { result ≡ due_store_in store stores.now k r.0 }
{
    if r.0 == 0 {
        return store;
    }
    store_of(stores, Round(r.0 - 1))
}

// Refuses at the lowest of k rounds whose guess is wrong.
pub fn guess_fault(
    plan: &[u8],
    store: [u8; VARIABLES],
    stores: &[u8; STORES],
    k: u8,
) -> Result<(), Refused<u32>>
    requires { (k ≤ most_jobs) × (1 + 8 * k ≤ length plan.now) }
    ensures { outcome result ≡ guess_fault_in plan.now store stores.now k }
{
    for r in 0..k {
        if guess_of(plan, Round(r)) != due_store(store, stores, k, Round(r)) {
            return Err(Refusal::Guess.at(u32::from(r)));
        }
    }
    Ok(())
}

// Refuses a plan that ran, and left these marks and stores, at the first of 43, 44 and 45.
pub fn refuse_illegal(
    marked: &Marked<'_>,
    plan: &[u8],
    store: [u8; VARIABLES],
    stores: &[u8; STORES],
    k: u8,
) -> Result<(), Refused<u32>>
    requires { (k ≤ most_jobs) × (1 + 8 * k ≤ length plan.now) }
    ensures { outcome result ≡ legality_in marked.now.program.now marked.now.times.now plan.now store stores.now
        marked.now.marks.now k }
{
    pair_fault(k, Refusal::Order, |x, y| marked.order_faulty(x, y))?;
    pair_fault(k, Refusal::Lock, |x, y| marked.lock_faulty(x, y))?;
    guess_fault(plan, store, stores, k)
}

// The fault of a plan whose run came to this, by whatever number at whatever place: that, or the first of 43, 44 and
// 45.
pub fn legality_fault(
    ran: Result<(), (u8, u32)>,
    marked: &Marked<'_>,
    plan: &[u8],
    store: [u8; VARIABLES],
    stores: &[u8; STORES],
    k: u8,
) -> Result<(), (u8, u32)>
    requires { (k ≤ most_jobs) × IfOk ran (λ _. 1 + 8 * k ≤ length plan.now) }
    ensures { result ≡ fault_then ran (legality_in marked.now.program.now marked.now.times.now plan.now store
        stores.now marked.now.marks.now k) }
{
    if let Err(fault) = ran {
        return Err(fault);
    }
    match refuse_illegal(marked, plan, store, stores, k) {
        Ok(()) => Ok(()),
        Err(e) => Err((e.why.number(), e.place)),
    }
}

// The end store: that of the last round, or the initial store if there are none.
pub fn end_store(store: [u8; VARIABLES], stores: &[u8; STORES], k: u8) -> [u8; VARIABLES]
    requires { k ≤ most_jobs }
    ensures { result ≡ last_or store (stores_in stores.now k) }
{
    due_store(store, stores, k, Round(k))
}
