// What is skipped before a token: blanks and comments.
ghost use Rattle.std.specs.Prelude.{◌≡◌, not};
ghost use Rattle.paper.specs.Bytes.{at, is};
ghost use Rattle.paper.specs.Scanner.{span, closing, gap};
ghost use Rattle.spelling.specs.Text.{option_of};
ghost use Rattle.refusal.specs.Refused.{answered};
ghost use Rattle.tokens.specs.Gaps.{place_of, skips};

use crate::class::Class;
use refusal::{Reason, Refusal};

// The rest of the line: up to the next LF, or the end of the source.
fn line_len(s: &[u8]) -> usize
    ensures { result ≡ span (λ b. not (is "\n" b)) s.now }
{
    s.iter().take_while(|b| **b != b'\n').count()
}

// The rest of a comment: past the first `*/`.
fn comment_len(s: &[u8]) -> Option<usize>
    ensures { result ≡ option_of (closing s.now) }
{
    for i in 0..s.len() {
        if s[i..].starts_with(b"*/") {
            return Some(i + 2);
        }
    }
    None
}

// The length of the comment at the front, where a `/` stands there: 0 where it begins none, and none for one that is
// not closed.
fn slash_len(s: &[u8]) -> Option<usize>
    requires { at s.now 0 ≡ 47 }
    ensures { result ≡ option_of (gap s.now) }
{
    if let Some(line) = s.strip_prefix(b"//") {
        Some(2 + line_len(line))
    } else if let Some(comment) = s.strip_prefix(b"/*") {
        Some(2 + comment_len(comment)?)
    } else {
        Some(0)
    }
}

// The length of the blank or the comment at the front: 0 where none stands there, and none for a comment
// that is not closed. Most tokens follow a blank or nothing, so the first byte is looked at alone.
fn gap_len(s: &[u8]) -> Option<usize>
    ensures { result ≡ option_of (gap s.now) }
{
    match s.first() {
        Some(b'/') => slash_len(s),
        Some(b) if Class::of(*b) == Class::Blank => Some(1),
        _ => Some(0),
    }
}

// From the front past all that is skipped.
pub(crate) fn skip(s: &[u8]) -> Result<usize, Refusal>
    ensures { answered result ≡ place_of (skips 0 s.now) }
{
    let mut place = 0;
    while let Some(len) = gap_len(&s[place..]) {
        if len == 0 {
            return Ok(place);
        }
        place += len;
    }
    Err(Refusal {
        reason: Reason::NoToken,
        place,
    })
}
