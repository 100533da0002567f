// The rules of legal plans over all pairs of jobs.
ghost use Rattle.std.specs.Prelude.{◌≡◌, ℕ, Bool, suc, ◌-◌, ◌≤◌, ◌<◌};
ghost use Rattle.notation.specs.Lists.{any, from};
ghost use Rattle.plan_marks.specs.Code.PairParts.{TakesPairs, JudgesPairs, pair_fault_in};
ghost use Rattle.taskfile.specs.Code.Refusals.{outcome, number_of};
ghost use Rattle.timing.specs.Accepted.{most_jobs};

use taskfile::refusals::{Refusal, Refused};
use timing::ListedJob;

// Has a pair of x with a job above it, of k jobs, a fault?
pub fn faulty_with<F: Fn(ListedJob, ListedJob) -> bool>(faulty: &F, k: u8, x: ListedJob) -> bool
    requires { (k ≤ most_jobs) × (x.number < k) × TakesPairs (F.pre faulty.now) k }
    ensures { (test : ℕ → ℕ → Bool) → JudgesPairs (F.post faulty.now) test k
        → result ≡ any (test x.number) (from (suc x.number) (k - suc x.number)) }
{
    for y in x.number + 1..k {
        if faulty(x, ListedJob { number: y }) {
            return true;
        }
    }
    false
}

// Refuses at the first pair with a fault, by the lower job, of k jobs.
pub fn pair_fault<F: Fn(ListedJob, ListedJob) -> bool>(
    k: u8,
    why: Refusal,
    faulty: F,
) -> Result<(), Refused<u32>>
    requires { (k ≤ most_jobs) × TakesPairs (F.pre faulty) k }
    ensures { (test : ℕ → ℕ → Bool) → JudgesPairs (F.post faulty) test k
        → outcome result ≡ pair_fault_in (number_of why) test k }
{
    for x in 0..k {
        if faulty_with(&faulty, k, ListedJob { number: x }) {
            return Err(why.at(u32::from(x)));
        }
    }
    Ok(())
}
