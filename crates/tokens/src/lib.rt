// One token from the rest of the source.
#![tactic(auto)]

mod class;
mod gaps;
mod names;
mod numbers;
mod scan;

ghost use Rattle.std.specs.Prelude.{◌≡◌, not, ◌&&◌, length};
ghost use Rattle.paper.specs.Tokens.{member, reserved};
ghost use Rattle.paper.specs.Scanner.{scan, next};
ghost use Rattle.paper.specs.Decoder.{one_name, one_decimal};
ghost use Rattle.refusal.specs.Refused.{answered};
ghost use Rattle.tokens.specs.Shown.{shown};

use crate::gaps::skip;
use crate::scan::{Front, scan_front};
pub use names::Word;
use refusal::Refusal;

// What a token is: `Integer` has its 64 bits, `Text` the number of the bytes that it means.
#[derive(Clone, Copy, Debug, PartialEq, Eq)]
pub enum Kind {
    Name,
    Word(Word),
    Integer(u64),
    Decimal,
    Text(usize),
    Mark(u8),
    End,
}

// A token, and the part of the rest that it was read from.
#[derive(Clone, Copy, Debug, PartialEq, Eq)]
pub struct Token {
    pub kind: Kind,
    pub at: usize,
    pub end: usize,
}

// The next token of the rest of the source; places count from the front of the rest.
pub fn next_token(rest: &[u8]) -> Result<Token, Refusal>
    ensures { answered result ≡ shown (next (record { place = 0; rest = rest.now })) }
{
    let at = skip(rest)?;
    match scan_front(&rest[at..]) {
        Ok(Front { kind, len }) => Ok(Token {
            kind,
            at,
            end: at + len,
        }),
        Err(reason) => Err(Refusal { reason, place: at }),
    }
}

// Whether all of s is one name that is not reserved.
pub fn is_name(s: &[u8]) -> bool
    ensures { result ≡ (one_name (length s.now) (scan s.now) && not (member s.now reserved)) }
{
    matches!(scan_front(s), Ok(Front { kind: Kind::Name, len }) if len == s.len())
}

// Whether all of s is one decimal.
pub fn is_decimal(s: &[u8]) -> bool
    ensures { result ≡ one_decimal (length s.now) (scan s.now) }
{
    matches!(scan_front(s), Ok(Front { kind: Kind::Decimal, len }) if len == s.len())
}
