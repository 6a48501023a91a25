// What an operation answers, or is expected to answer.
use refusal::Refusal;
use std::fmt;

// A refusal's number and place. No `Reason`, since a case may expect any number, and its line tells it.
#[derive(Clone, Copy, Debug, PartialEq, Eq)]
pub struct Refused {
    pub number: usize,
    pub place: usize,
}

impl From<Refusal> for Refused {
    fn from(refusal: Refusal) -> Refused {
        Refused {
            number: refusal.reason.number(),
            place: refusal.place,
        }
    }
}

// The output's length, or why and where there is none.
pub type Answer = Result<usize, Refused>;

// An answer as a line tells it.
#[derive(Clone, Copy)]
pub struct Told(pub Answer);

impl fmt::Display for Told {
    fn fmt<W: fmt::Write>(&self, f: &mut fmt::Formatter<W>) -> fmt::Result {
        match self.0 {
            Ok(n) => write!(f, "done {n}"),
            Err(Refused { number, place }) => write!(f, "refused {number} at {place}"),
        }
    }
}
