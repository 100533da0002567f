// Refusals: which number, and at which place. Document 01, "Numbers by who causes them".
ghost use Rattle.std.specs.Prelude.{◌≡◌};
ghost use Rattle.taskfile.specs.Code.Refusals.{number_of};

// What is refused; as a byte, it is the number.
#[derive(Clone, Copy, PartialEq, Eq)]
pub enum Refusal {
    // The file's author and the bench.
    Size = 1,
    Kind = 2,
    Chain = 3,
    Field = 4,
    Count = 5,
    Stray = 6,
    Body = 7,
    Rate = 8,
    Ceiling = 9,
    Overload = 10,
    Jobs = 11,
    // The caller.
    Room = 20,
    Undecided = 21,
    // The author of an order.
    Step = 30,
    Short = 31,
    Extra = 32,
    // Document 02, E1: the two that 30 held before, a task outside the table and a value that is not on offer.
    Task = 33,
    Offer = 34,
    // The author of a plan.
    Shape = 40,
    Value = 41,
    Round = 42,
    Order = 43,
    Lock = 44,
    Guess = 45,
    // Document 02, E5, the author of a text: a line not in the grammar or missing, a number too large for its field, and
    // a text that is too long.
    Line = 60,
    Large = 61,
    Long = 62,
}

// A refusal at its place: a record, a site, a line, a step's index, an offset, a job or a round.
#[derive(Clone, Copy)]
pub struct Refused<P> {
    pub why: Refusal,
    pub place: P,
}

impl Refusal {
    // Its number.
    pub fn number(self) -> u8
        ensures { result ≡ number_of self }
    {
        self as u8
    }

    // This refusal at a place.
    pub fn at<P>(self, place: P) -> Refused<P>
        ensures { result ≡ record { why = self; place = place } }
    {
        Refused { why: self, place }
    }
}

impl From<Refused<u8>> for Refused<u32> {
    ghost from_gives = { λ e wider. wider ≡ record { why = e.why; place = e.place } };

    fn from(e: Refused<u8>) -> Self {
        Refused {
            why: e.why,
            place: u32::from(e.place),
        }
    }
}
