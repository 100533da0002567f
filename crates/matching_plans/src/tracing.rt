// The run of a complete order, with each step noted in its round, and each round's first store.
ghost use Rattle.std.specs.Prelude.{◌≡◌};
ghost use Rattle.notation.specs.Lists.{bytes_at};
ghost use Rattle.matching_plans.specs.Code.Tracing.{guess_in, round_in, noted_of, with_step, in_next_round, step_noted, order_noted};

use crate::Trace;
use machine::POSITIONS;
use notation::bytes::bytes_at;
use order_states::{DEPTH_AT, Lent, STATE_BYTES, STORE_AT, VALUES};
use order_steps::step_with;
use order_turns::turns::turn_of;
use plan::Round;
use plan_marks::rounds::put_store;
use plan_marks::{STORES, StepMark};
use taskfile::Task;
use taskfile::limits::{MOST_INSTRUCTIONS, MOST_JOBS};
use timing::ListedJob;

// Notes the store where the round after r begins, of any state's bytes, and answers that round. The last of 32 rounds
// has none after it.
pub fn next_round(s: &[u8; STATE_BYTES], r: Round, guesses: &mut [u8; STORES]) -> Round
    ensures round { result.0 ≡ round_in r.0 }
    ensures guesses { guesses.new ≡ guess_in guesses.old r.0 (bytes_at s.now 0 8) }
{
    if MOST_JOBS - 1 <= r.0 {
        return r;
    }
    let next = Round(r.0 + 1);
    put_store(guesses, next, bytes_at(s, STORE_AT));
    next
}

impl Trace {
    // Notes a step of job x in the round, with its value, if the job has room for one more.
    pub fn note_step(&mut self, x: ListedJob, value: u8)
        ensures { noted_of self.new ≡ with_step (noted_of self.old) x.number value }
    {
        let n = self.marks.count(x);
        if n < MOST_INSTRUCTIONS {
            let mark = StepMark {
                round: self.round,
                value,
                priority: 0,
            };
            self.marks.put(x, n, mark);
        }
    }

    // Goes on to the next round, which begins with the store. The last of 32 rounds has none after it.
    pub fn next_round(&mut self)
        ensures { noted_of self.new ≡ in_next_round (noted_of self.old) }
    {
        let state = &self.state;
        self.round = next_round(&state.bytes, self.round, &mut self.guesses);
    }

    // Makes the step that a byte of a complete order asks for, and notes it. The round ends with the job. The tests
    // never hold for a complete order.
    pub fn step(&mut self, lent: &Lent, byte: u8)
        ensures { noted_of self.new
            ≡ step_noted lent.now.program lent.now.waits lent.now.locks (noted_of self.old) byte }
    {
        let i = Task(byte / VALUES);
        let Some(d) = turn_of(lent, &self.state, i) else {
            return;
        };
        let next = d.frame.local.next;
        if POSITIONS <= next {
            return;
        }
        let value = byte % VALUES;
        step_with(&lent.program, &mut self.state, d.frame, d.under, i, value);
        let x = ListedJob {
            number: d.frame.job.0,
        };
        self.note_step(x, value);
        if self.state.bytes[DEPTH_AT] == d.under {
            self.next_round();
        }
    }

    // Makes and notes the steps of a complete order.
    pub fn follow(&mut self, lent: &Lent, order: &[u8])
        ensures { noted_of self.new
            ≡ order_noted lent.now.program lent.now.waits lent.now.locks (noted_of self.old) order.now }
    {
        for byte in order {
            self.step(lent, *byte);
        }
    }
}
