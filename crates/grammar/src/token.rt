// Single tokens at a place of the source.
// Each reader asks that the place lies in the source. A struct of both is no plainer: answers hand on places alone,
// so each call would make one, `Rest { src, at: spot.next }.expect(kind)` for `expect(src, spot.next, kind)`, and prove
// there what it proves now.
ghost use Rattle.std.specs.Prelude.{◌≡◌, ◌≤◌, length};
ghost use Rattle.refusal.specs.declared.Reason.TheVariants.{Unexpected};
ghost use Rattle.grammar.specs.Seen.{SeenIs, ExpectedIs, FollowsIs};

use refusal::{Reason, Refusal};
use tokens::{Kind, Token, next_token};

// The one place where a token is read, from the rest of the source. Its places count from the front of the source.
pub(crate) fn token_at(src: &[u8], at: usize) -> Result<Token, Refusal>
    requires { at ≤ length src.now }
    ensures { SeenIs src.now at result }
{
    match next_token(&src[at..]) {
        Ok(token) => Ok(Token {
            kind: token.kind,
            at: at + token.at,
            end: at + token.end,
        }),
        Err(refusal) => Err(Refusal {
            reason: refusal.reason,
            place: at + refusal.place,
        }),
    }
}

// A token that cannot stand where it does.
pub(crate) fn unexpected(place: usize) -> Refusal
    ensures { result ≡ record { reason = Unexpected; place = place } }
{
    Refusal {
        reason: Reason::Unexpected,
        place,
    }
}

// Where a token stands, and where the source goes on.
#[derive(Clone, Copy)]
pub struct Spot {
    pub place: usize,
    pub next: usize,
}

// A token of this kind has to stand here.
pub(crate) fn expect(src: &[u8], at: usize, kind: Kind) -> Result<Spot, Refusal>
    requires { at ≤ length src.now }
    ensures { ExpectedIs src.now at kind result }
{
    let token = token_at(src, at)?;
    if token.kind == kind {
        Ok(Spot {
            place: token.at,
            next: token.end,
        })
    } else {
        Err(unexpected(token.at))
    }
}

// A mark that may stand here. Not `then_some`, which would make the spot before the test.
pub(crate) fn follows(src: &[u8], at: usize, byte: u8) -> Result<Option<Spot>, Refusal>
    requires { at ≤ length src.now }
    ensures { FollowsIs src.now at byte result }
{
    let token = token_at(src, at)?;
    if token.kind == Kind::Mark(byte) {
        Ok(Some(Spot {
            place: token.at,
            next: token.end,
        }))
    } else {
        Ok(None)
    }
}
