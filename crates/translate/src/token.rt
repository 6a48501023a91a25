// Tokens that are known to stand in the source, found again.
ghost use Rattle.std.specs.Prelude.{◌≡◌, ◌≤◌, length};
ghost use Rattle.paper.specs.Layout.{long_text};
ghost use Rattle.translate.specs.Settled.{said_at, DecimalThere};
ghost use Rattle.translate.specs.Puts.{NameNext, NameSpan, MoreIs, Put, TextFits, DecimalFits, StringFits};

use tokens::{Kind, next_token};

// From where to where a token stands.
#[derive(Clone, Copy)]
pub struct Span {
    pub at: usize,
    pub end: usize,
}

// The name was read before, so none is refused.
pub(crate) fn name_at(src: &[u8], at: usize) -> Span
    requires { NameNext src.now at }
    ensures { NameSpan src.now at result }
{
    let token = next_token(&src[at..]).unwrap();
    Span {
        at: at + token.at,
        end: at + token.end,
    }
}

// Where the source goes on after a colon, if one follows. Not `then_some`: it would add before the test.
pub(crate) fn colon_at(src: &[u8], at: usize) -> Option<usize>
    requires { at ≤ length src.now }
    ensures { MoreIs src.now at result }
{
    let token = next_token(&src[at..]).ok()?;
    if token.kind == Kind::Mark(b':') {
        Some(at + token.end)
    } else {
        None
    }
}

fn put_text(text: &[u8], out: &mut [u8], to: usize) -> usize
    requires { TextFits text.now out.old to }
    ensures { Put out.old out.new to (long_text text.now) result }
{
    let n = text.len();
    memory::put16(out, to, n as u16);
    memory::copy(out, to + 2, text);
    to + 2 + n
}

// A decimal's text is the very part of the source that it was read from.
fn decimal_at(src: &[u8], at: usize) -> &[u8]
    requires { DecimalThere src.now at }
    ensures { result.now ≡ said_at src.now at }
{
    let token = next_token(&src[at..]).unwrap();
    spelling::token_part(&src[at..], token.at, token.end)
}

pub(crate) fn put_decimal(src: &[u8], at: usize, out: &mut [u8], to: usize) -> usize
    requires { DecimalFits src.now at out.old to }
    ensures { Put out.old out.new to (long_text (said_at src.now at)) result }
{
    put_text(decimal_at(src, at), out, to)
}

// A string's is what its escapes mean.
pub(crate) fn put_string(src: &[u8], at: usize, out: &mut [u8], to: usize) -> usize
    requires { StringFits src.now at out.old to }
    ensures { Put out.old out.new to (long_text (said_at src.now at)) result }
{
    let n = spelling::decode(&src[at..], out, to + 2);
    memory::put16(out, to, n as u16);
    to + 2 + n
}
