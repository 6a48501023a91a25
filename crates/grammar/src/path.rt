// References: names joined by `:`.
ghost use Rattle.std.specs.Prelude.{◌≡◌, ◌≤◌, length};
ghost use Rattle.grammar.specs.Paths.{PathIs, RefIs};

use crate::token::{expect, follows, token_at};
use refusal::{Reason, Refusal};
use tokens::Kind;

const NAMES: usize = 32;

// A whole reference: where the source goes on, and how many bytes of text it will take.
#[derive(Clone, Copy)]
pub struct Path {
    pub next: usize,
    pub size: usize,
}

pub(crate) fn read_path(src: &[u8], at: usize) -> Result<Path, Refusal>
    requires { at ≤ length src.now }
    ensures { PathIs src.now at result }
{
    let mut next = at;
    let mut size: usize = 1;
    for _ in 0..NAMES {
        let spot = expect(src, next, Kind::Name)?;
        size += spot.next - spot.place + 1;
        let Some(colon) = follows(src, spot.next, b':')? else {
            return Ok(Path {
                next: spot.next,
                size,
            });
        };
        next = colon.next;
    }
    let spot = expect(src, next, Kind::Name)?;
    Err(Refusal {
        reason: Reason::TokenTooLong,
        place: spot.place,
    })
}

// A reference: where it stands, where the source goes on, and how many bytes of text it will take.
#[derive(Clone, Copy)]
pub struct Reference {
    pub place: usize,
    pub next: usize,
    pub size: usize,
}

// A reference that may stand here.
pub(crate) fn read_reference(src: &[u8], at: usize) -> Result<Option<Reference>, Refusal>
    requires { at ≤ length src.now }
    ensures { RefIs src.now at result }
{
    let token = token_at(src, at)?;
    if token.kind != Kind::Name {
        return Ok(None);
    }
    let path = read_path(src, at)?;
    Ok(Some(Reference {
        place: token.at,
        next: path.next,
        size: path.size,
    }))
}
