// The token at the front, nothing being skipped.
ghost use Rattle.std.specs.Prelude.{◌≡◌, drop};
ghost use Rattle.paper.specs.Tokens.{goes_on};
ghost use Rattle.paper.specs.Bytes.{at, is};
ghost use Rattle.paper.specs.Scanner.{span, sign, named, text, scan};
ghost use Rattle.spelling.specs.Text.{quotes};
ghost use Rattle.tokens.specs.Numbers.{Digits};
ghost use Rattle.tokens.specs.Scans.{by_number, front_of, numbered, ends_at, integer_front};

use crate::Kind;
use crate::class::Class;
use crate::names::{kind_of, name_len};
use crate::numbers::{integer, number_len, whole_len};
use refusal::Reason;
use spelling::{LONGEST, Quoted, measure};

// The most bytes of a name.
const LONGEST_NAME: usize = 255;

// A token with its length.
#[derive(Clone, Copy, Debug, PartialEq, Eq)]
pub struct Front {
    pub kind: Kind,
    pub len: usize,
}

fn name_token(s: &[u8]) -> Result<Front, Reason>
    ensures { by_number result ≡ front_of (named (span goes_on s.now) s.now) }
{
    let len = name_len(s);
    if len > LONGEST_NAME {
        return Err(Reason::TokenTooLong);
    }
    Ok(Front {
        kind: kind_of(&s[..len]),
        len,
    })
}

// Whether a number that ends at a place ends there: no name byte and no `.` may follow.
fn ends_at(s: &[u8], m: usize) -> bool
    ensures { result ≡ ends_at s.now m }
{
    match s.get(m) {
        Some(b) => !Class::of(*b).goes_on() && *b != b'.',
        None => true,
    }
}

fn number_token(s: &[u8]) -> Result<Front, Reason>
    ensures { by_number result ≡ front_of (numbered s.now) }
{
    let whole = whole_len(s);
    if whole == 0 {
        return Err(Reason::NoToken);
    }
    let len = number_len(s, whole);
    if !ends_at(s, len) {
        Err(Reason::NoToken)
    } else if len == whole {
        integer_token(&s[..len])
    } else if len > LONGEST {
        Err(Reason::TokenTooLong)
    } else {
        Ok(Front {
            kind: Kind::Decimal,
            len,
        })
    }
}

// All of s is an integer's text.
fn integer_token(s: &[u8]) -> Result<Front, Reason>
    requires { Digits (drop (sign (is "-") (at s.now 0)) s.now) }
    ensures { by_number result ≡ integer_front s.now }
{
    match integer(s) {
        Some(bits) => Ok(Front {
            kind: Kind::Integer(bits),
            len: s.len(),
        }),
        None => Err(Reason::IntegerOutOfRange),
    }
}

fn string_token(s: &[u8]) -> Result<Front, Reason>
    ensures { by_number result ≡ front_of (text (quotes (drop 1 s.now))) }
{
    let Some(Quoted { count, end }) = measure(s, 1) else {
        return Err(Reason::NoToken);
    };
    if count > LONGEST {
        return Err(Reason::TokenTooLong);
    }
    Ok(Front {
        kind: Kind::Text(count),
        len: end,
    })
}

pub(crate) fn scan_front(s: &[u8]) -> Result<Front, Reason>
    ensures { by_number result ≡ front_of (scan s.now) }
{
    let Some(first) = s.first() else {
        return Ok(Front {
            kind: Kind::End,
            len: 0,
        });
    };
    match Class::of(*first) {
        Class::Start => name_token(s),
        Class::Digit | Class::Minus => number_token(s),
        Class::Quote => string_token(s),
        Class::Mark => Ok(Front {
            kind: Kind::Mark(*first),
            len: 1,
        }),
        Class::Blank | Class::Other => Err(Reason::NoToken),
    }
}
