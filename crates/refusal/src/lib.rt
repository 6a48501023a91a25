// Refusals: why an operation refuses, and where. One type for all who refuse.
#![tactic(auto)]

ghost use Rattle.std.specs.Prelude.{◌≡◌, Some};
ghost use Rattle.refusal.specs.Refused.{number_of};
ghost use Rattle.refusal.specs.Text.{refusal_text};

use std::fmt;

// The refusals of document 01, by what is said of each; each variant's number is the one that document 01 gives it.
#[derive(Clone, Copy, Debug, PartialEq, Eq)]
pub enum Reason {
    DescriptionTooLong = 1,
    NoToken = 2,
    Unexpected = 3,
    IntegerOutOfRange = 4,
    TooManyOpenings = 5,
    TokenTooLong = 6,
    ListTooLong = 7,
    SliceTooShort = 8,
    NotAStepList = 9,
    NotATable = 10,
    LinkFindsNothing = 11,
    PrototypeFindsNothing = 12,
    PrototypeIsNoComponent = 13,
    TargetAbsent = 14,
    TargetIsNoComponent = 15,
    TooDeep = 16,
    TooManyNodes = 17,
    TooMuchText = 18,
    MainAbsent = 19,
    MainIsNoComponent = 20,
    TargetIsRoot = 21,
}

#[derive(Clone, Copy, Debug, PartialEq, Eq)]
pub struct Refusal {
    pub reason: Reason,
    pub place: usize,
}

impl Reason {
    pub fn number(self) -> usize
        ensures { result ≡ number_of self }
    {
        self as usize
    }
}

impl fmt::Display for Refusal {
    ghost output = { λ r. Some (refusal_text r) };

    fn fmt<W: fmt::Write>(&self, f: &mut fmt::Formatter<W>) -> fmt::Result {
        let number = self.reason.number();
        let place = self.place;
        write!(f, "refused {number} at {place}")
    }
}

#[cfg(test)]
mod tests;
