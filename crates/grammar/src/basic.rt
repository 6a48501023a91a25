// Basics, as far as they can be read without a stack: whole, or up to a vector's bracket.
ghost use Rattle.std.specs.Prelude.{◌≡◌, ◌≤◌, length};
ghost use Rattle.grammar.specs.Basics.{FoundIs, laid_of};
ghost use Rattle.grammar.specs.declared.basic.Laid.TheVariants.{Plain};

use crate::path::read_path;
use crate::token::{token_at, unexpected};
use kinds::Kind;
use refusal::Refusal;
use tokens::{Kind as TokenKind, Word};

// The basic kinds with their data. A text is kept as the place where it stands and the bytes that it will take.
#[derive(Clone, Copy)]
pub enum Basic {
    Boolean(bool),
    Null,
    Integer(u64),
    Decimal { place: usize, size: usize },
    Text { place: usize, size: usize },
    Data { place: usize, size: usize },
    Vector { place: usize },
}

// What was found, and where the source goes on.
#[derive(Clone, Copy)]
pub struct FoundBasic {
    pub basic: Basic,
    pub next: usize,
}

pub(crate) fn find_basic(src: &[u8], at: usize) -> Result<FoundBasic, Refusal>
    requires { at ≤ length src.now }
    ensures { FoundIs src.now at result }
{
    let token = token_at(src, at)?;
    let mut next = token.end;
    let basic = match token.kind {
        TokenKind::Word(word) => match word {
            Word::True => Basic::Boolean(true),
            Word::False => Basic::Boolean(false),
            Word::Null => Basic::Null,
            Word::Data => {
                let path = read_path(src, token.end)?;
                next = path.next;
                Basic::Data {
                    place: token.end,
                    size: path.size,
                }
            }
            _ => return Err(unexpected(token.at)),
        },
        TokenKind::Integer(bits) => Basic::Integer(bits),
        TokenKind::Decimal => Basic::Decimal {
            place: token.at,
            size: token.end - token.at + 2,
        },
        TokenKind::Text(n) => Basic::Text {
            place: token.at,
            size: n + 2,
        },
        TokenKind::Mark(b'[') => Basic::Vector { place: token.at },
        _ => return Err(unexpected(token.at)),
    };
    Ok(FoundBasic { basic, next })
}

// A basic as a draft has it: kind, value and bytes of text; or a vector, of which only the bracket is read.
#[derive(Clone, Copy)]
pub enum Laid {
    Plain { kind: Kind, value: u64, size: usize },
    Opened { place: usize },
}

fn plain(kind: Kind, value: u64, size: usize) -> Laid
    ensures { result ≡ Plain kind value size }
{
    Laid::Plain { kind, value, size }
}

pub(crate) fn lay(basic: Basic) -> Laid
    ensures { result ≡ laid_of basic }
{
    match basic {
        Basic::Boolean(b) => plain(Kind::Boolean, u64::from(b), 0),
        Basic::Null => plain(Kind::Null, 0, 0),
        Basic::Integer(bits) => plain(Kind::Integer, bits, 0),
        Basic::Decimal { place, size } => plain(Kind::Decimal, place as u64, size),
        Basic::Text { place, size } => plain(Kind::Text, place as u64, size),
        Basic::Data { place, size } => plain(Kind::Reference, place as u64, size),
        Basic::Vector { place } => Laid::Opened { place },
    }
}
