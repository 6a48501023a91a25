// The class of each byte, in one table.
ghost use Rattle.std.specs.Prelude.{◌≡◌};
ghost use Rattle.tokens.specs.Class.{class_of, goes_on_of};

use Class::{Blank as B, Digit as D, Mark as M, Minus as N, Other as O, Quote as Q, Start as S};

// What a byte does: it begins a name, is a digit or a minus, which may go on one, opens a string, is a mark,
// is skipped, or none of these.
#[derive(Clone, Copy, Debug, PartialEq, Eq)]
pub enum Class {
    Start,
    Digit,
    Minus,
    Quote,
    Mark,
    Blank,
    Other,
}

// 32 bytes a row. A static, since a constant array would be made anew at each read.
static TABLE: [Class; 256] = [
    O, O, O, O, O, O, O, O, O, B, B, O, B, B, O, O, O, O, O, O, O, O, O, O, O, O, O, O, O, O, O, O,
    B, O, Q, O, S, O, O, O, O, O, O, O, M, N, O, O, D, D, D, D, D, D, D, D, D, D, M, M, O, O, O, O,
    O, S, S, S, S, S, S, S, S, S, S, S, S, S, S, S, S, S, S, S, S, S, S, S, S, S, S, M, O, M, O, S,
    O, S, S, S, S, S, S, S, S, S, S, S, S, S, S, S, S, S, S, S, S, S, S, S, S, S, S, M, O, M, O, O,
    O, O, O, O, O, O, O, O, O, O, O, O, O, O, O, O, O, O, O, O, O, O, O, O, O, O, O, O, O, O, O, O,
    O, O, O, O, O, O, O, O, O, O, O, O, O, O, O, O, O, O, O, O, O, O, O, O, O, O, O, O, O, O, O, O,
    O, O, O, O, O, O, O, O, O, O, O, O, O, O, O, O, O, O, O, O, O, O, O, O, O, O, O, O, O, O, O, O,
    O, O, O, O, O, O, O, O, O, O, O, O, O, O, O, O, O, O, O, O, O, O, O, O, O, O, O, O, O, O, O, O,
];

impl Class {
    // The class of a byte.
    pub(crate) fn of(b: u8) -> Class
        ensures { result ≡ class_of b }
    {
        TABLE[usize::from(b)]
    }

    // Whether a name goes on with a byte of this class.
    pub(crate) fn goes_on(self) -> bool
        ensures { result ≡ goes_on_of self }
    {
        matches!(self, Class::Start | Class::Digit | Class::Minus)
    }
}
