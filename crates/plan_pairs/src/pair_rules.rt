// The rules of legal plans for two jobs, over the marks of their steps.
ghost use Rattle.std.specs.Prelude.{◌≡◌};
ghost use Rattle.order_states.specs.Code.SnapshotSteps.{owner_in};
ghost use Rattle.plan.specs.Runs.{earlier};
ghost use Rattle.plan_marks.specs.Code.PairParts.{round_of_first, round_of_start, round_of_end, before_kept, rounds_apart, rounds_nested};
ghost use Rattle.plan_marks.specs.Code.PairParts.{none_within};
ghost use Rattle.plan_marks.specs.Code.PairParts.{preempt_kept, priority_reached, lock_kept, order_faulty, lock_faulty};

use order_states::{OWNERS_AT, PROGRAM, TIMES};
use order_turns::programs::{comes_before, may_preempt};
use plan::Round;
use plan_marks::{Marks, STEPS, StepMark};
use taskfile::Task;
use taskfile::limits::{INSTRUCTIONS, JOBS};
use timing::ListedJob;

// The round of job x's first step, in arrays of any marks.
pub fn start_round(counts: &[u8; JOBS], steps: &[StepMark; STEPS], x: ListedJob) -> Round
    ensures { result ≡ round_of_first counts.now steps.now x.number }
{
    if counts[usize::from(x.number)] == 0 {
        return Round(0);
    }
    steps[INSTRUCTIONS * usize::from(x.number)].round
}

// What the rules are judged over: what is lent of the table, and the marks of a run's steps.
#[derive(Clone, Copy)]
pub struct Marked<'a> {
    pub program: &'a [u8; PROGRAM],
    pub times: &'a [u64; TIMES],
    pub marks: &'a Marks,
}

impl Marked<'_> {
    // The base of job x.
    fn base(&self, x: ListedJob) -> Task
        ensures { result.0 ≡ owner_in self.now.program.now x.number }
    {
        Task(self.program[OWNERS_AT + usize::from(x.number)])
    }

    // The round of job x's first step.
    pub fn start_round(&self, x: ListedJob) -> Round
        ensures { result ≡ round_of_start self.now.marks.now x.number }
    {
        start_round(&self.marks.counts, &self.marks.steps, x)
    }

    // The round of job x's last step.
    pub fn end_round(&self, x: ListedJob) -> Round
        ensures { result ≡ round_of_end self.now.marks.now x.number }
    {
        let count = self.marks.count(x);
        if count == 0 {
            return Round(0);
        }
        self.marks.step(x, count - 1).round
    }

    // Has job x no step in rounds r + 1 to q?
    pub fn none_within(&self, x: ListedJob, r: Round, q: Round) -> bool
        ensures { result ≡ none_within self.now.marks.now x.number r q }
    {
        (0..self.marks.count(x)).all(|n| {
            let p = self.marks.step(x, n).round;
            !(r.0 < p.0 && p.0 <= q.0)
        })
    }

    // Job x's priority after its steps up to round r.
    pub fn priority_up_to(&self, x: ListedJob, r: Round) -> u8
        ensures { result ≡ priority_reached self.now.marks.now (owner_in self.now.program.now x.number) x.number r }
    {
        let count = self.marks.count(x);
        let mut priority = self.base(x).0;
        for n in 0..count {
            let step = self.marks.step(x, n);
            if step.round.0 <= r.0 {
                priority = step.priority;
            }
        }
        priority
    }

    // Does job x end before job y starts?
    pub fn ends_before(&self, x: ListedJob, y: ListedJob) -> bool
        ensures { result ≡ earlier (round_of_end self.now.marks.now x.number)
            (round_of_start self.now.marks.now y.number) }
    {
        self.end_round(x).0 < self.start_round(y).0
    }

    // X before Y: does X end before Y starts?
    pub fn before_kept(&self, x: ListedJob, y: ListedJob) -> bool
        ensures { result ≡ before_kept self.now.program.now self.now.times.now self.now.marks.now x.number y.number }
    {
        !comes_before(self.program, self.times, x, y) || self.ends_before(x, y)
    }

    // Does one of the two end before the other starts?
    pub fn rounds_apart(&self, x: ListedJob, y: ListedJob) -> bool
        ensures { result ≡ rounds_apart self.now.marks.now x.number y.number }
    {
        self.ends_before(x, y) || self.ends_before(y, x)
    }

    // Is y nested in x?
    pub fn rounds_nested(&self, y: ListedJob, x: ListedJob) -> bool
        ensures { result ≡ rounds_nested self.now.marks.now y.number x.number }
    {
        self.start_round(x).0 <= self.start_round(y).0 && self.end_round(y).0 < self.end_round(x).0
    }

    // Y may preempt X: are the two apart, or y nested in x with no step of x from its start on up to its end?
    pub fn preempt_kept(&self, y: ListedJob, x: ListedJob) -> bool
        ensures { result ≡ preempt_kept self.now.program.now self.now.times.now self.now.marks.now y.number x.number }
    {
        !may_preempt(self.program, self.times, y, x)
            || self.rounds_apart(x, y)
            || self.rounds_nested(y, x)
                && self.none_within(x, self.start_round(y), self.end_round(y))
    }

    // Y may preempt X and is nested in it: is x's priority below y's base after its steps up to y's start?
    pub fn lock_kept(&self, y: ListedJob, x: ListedJob) -> bool
        ensures { result ≡ lock_kept self.now.program.now self.now.times.now self.now.marks.now y.number x.number }
    {
        !may_preempt(self.program, self.times, y, x)
            || !self.rounds_nested(y, x)
            || self.priority_up_to(x, self.start_round(y)) < self.base(y).0
    }

    // Does the pair break the round rules, locks aside?
    pub fn order_faulty(&self, x: ListedJob, y: ListedJob) -> bool
        ensures { result ≡ order_faulty self.now.program.now self.now.times.now self.now.marks.now x.number y.number }
    {
        !self.before_kept(x, y)
            || !self.before_kept(y, x)
            || !self.preempt_kept(y, x)
            || !self.preempt_kept(x, y)
    }

    // Does the priority clause fail for the pair?
    pub fn lock_faulty(&self, x: ListedJob, y: ListedJob) -> bool
        ensures { result ≡ lock_faulty self.now.program.now self.now.times.now self.now.marks.now x.number y.number }
    {
        !self.lock_kept(y, x) || !self.lock_kept(x, y)
    }
}
