// What a walk comes to, and what that answers and shows.
#![tactic(auto)]

pub mod entries;
pub mod trials;

ghost use Rattle.std.specs.Prelude.{◌≡◌};
ghost use Rattle.order_states.specs.Code.StateBytes.{snapshot_in};
ghost use Rattle.walk.specs.WalkEntry.{refusal};
ghost use Rattle.walk_trials.specs.Code.Outcomes.{ended_at, reached, Short, answer_of, shown_length};

use machine::End;
use notation::bytes::bytes_at;
use order_replay::ends::{failed_in, some_failed};
use order_states::{STATE_BYTES, STORE_AT};
use taskfile::limits::{JOBS, VARIABLES};
use taskfile::refusals::Refusal;
use walk::{Verdict, WalkAnswer};

// What the trial of a state's moves comes to, and the walk of a state.
#[derive(Clone, Copy)]
pub enum Trial {
    // No order failed.
    Held,
    // The allowance did not suffice.
    Stopped,
    // An order of this length failed.
    Found(usize),
}

// What the walk of a table comes to: the allowance stopped it, or so many moves were made; of an order found also its
// length and how it ends.
#[derive(Clone, Copy)]
pub enum Outcome {
    Stopped,
    Held(u64),
    Found(u64, usize, End),
}

// What a walk comes to, and, whatever that is, the moves made and the end of the state that it left.
#[derive(Clone, Copy)]
pub struct Reached {
    pub outcome: Outcome,
    pub count: u64,
    pub end: End,
}

// What a walk comes to at a complete order of so many steps, which fails if a job has.
pub fn ended(s: &[u8; STATE_BYTES], steps: usize) -> Trial
    ensures { result ≡ ended_at (snapshot_in s.now) steps }
{
    if some_failed(s) {
        Trial::Found(steps)
    } else {
        Trial::Held
    }
}

// What a walk comes to whose trial came to r after so many moves, and left this state: an order found ends in it.
pub fn outcome_of(r: Trial, count: u64, s: &[u8; STATE_BYTES]) -> Reached
    ensures { result ≡ reached r count (snapshot_in s.now) }
{
    let store = bytes_at(s, STORE_AT);
    let failed = failed_in(s);
    let end = End { store, failed };
    let outcome = match r {
        Trial::Held => Outcome::Held(count),
        Trial::Stopped => Outcome::Stopped,
        Trial::Found(length) => Outcome::Found(count, length, end),
    };
    Reached {
        outcome,
        count,
        end,
    }
}

// A refusal: number and place; every other field is zero.
pub fn refused_walk(number: u8, place: u32) -> WalkAnswer
    ensures { result ≡ refusal number place }
{
    WalkAnswer {
        number,
        place,
        verdict: Verdict::None,
        count: 0,
        length: 0,
        store: [0; VARIABLES],
        failed: [false; JOBS],
    }
}

// What a walk's outcome answers: 21, or the verdict.
pub fn outcome_answer(r: Outcome) -> WalkAnswer
    requires { Short r }
    ensures { result ≡ answer_of r }
{
    match r {
        Outcome::Stopped => refused_walk(Refusal::Undecided.number(), 0),
        Outcome::Held(count) => WalkAnswer {
            number: 0,
            place: 0,
            verdict: Verdict::Holds,
            count,
            length: 0,
            store: [0; VARIABLES],
            failed: [false; JOBS],
        },
        Outcome::Found(count, length, end) => {
            let store = end.store;
            let failed = end.failed;
            WalkAnswer {
                number: 0,
                place: 0,
                verdict: Verdict::Fails,
                count,
                length: length as u32,
                store,
                failed,
            }
        }
    }
}

// How many bytes of the buffer are an order to show.
pub fn shown_length(r: Outcome) -> usize
    ensures { result ≡ shown_length r }
{
    match r {
        Outcome::Found(_, length, _) => length,
        _ => 0,
    }
}
