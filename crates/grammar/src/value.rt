// A statement's value, as far as it can be read without a stack.
ghost use Rattle.std.specs.Prelude.{◌≡◌, ◌≤◌, length};
ghost use Rattle.grammar.specs.Values.{BegunIs};

use crate::basic::{Basic, find_basic};
use crate::path::{Reference, read_path};
use crate::token::token_at;
use refusal::Refusal;
use tokens::{Kind, Word};

// The three sorts: a basic, a link to a reference, `extends`.
#[derive(Clone, Copy)]
pub enum Value {
    Basic(Basic),
    Link(Reference),
    Extends,
}

// What was found, and where the source goes on.
#[derive(Clone, Copy)]
pub struct FoundValue {
    pub value: Value,
    pub next: usize,
}

pub(crate) fn find_value(src: &[u8], at: usize) -> Result<FoundValue, Refusal>
    requires { at ≤ length src.now }
    ensures { BegunIs src.now at result }
{
    let token = token_at(src, at)?;
    match token.kind {
        Kind::Word(Word::Extends) => Ok(FoundValue {
            value: Value::Extends,
            next: token.end,
        }),
        Kind::Name => {
            let path = read_path(src, at)?;
            Ok(FoundValue {
                value: Value::Link(Reference {
                    place: token.at,
                    next: path.next,
                    size: path.size,
                }),
                next: path.next,
            })
        }
        _ => {
            let found = find_basic(src, at)?;
            Ok(FoundValue {
                value: Value::Basic(found.basic),
                next: found.next,
            })
        }
    }
}
