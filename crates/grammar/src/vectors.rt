// Basics whole: a vector's items are read before its own draft, which tells how many drafts they are.
ghost use Rattle.std.specs.Prelude.{◌≡◌};
ghost use Rattle.grammar.specs.Puts.{put_row};
ghost use Rattle.grammar.specs.Readers.{own_row, FitBasic, Fit, BasicRead, ItemsRead};

use crate::basic::{Basic, Laid, find_basic, lay};
use crate::cursor::Cursor;
use crate::draft::{Entry, Work, put};
use crate::token::follows;
use kinds::{Kind, Step};
use refusal::{Reason, Refusal};

// What a basic is for: a set or an item, the place of its path and of itself, and the bytes that its path will take.
#[derive(Clone, Copy)]
pub struct Own {
    pub step: Step,
    pub place: usize,
    pub size: usize,
}

// The draft of a basic of which only the text of the own path counts.
fn put_own(work: &mut Work, n: usize, own: Own, kind: Kind, span: usize, value: u64)
    ensures { work.new ≡ put_row work.old n (own_row own kind span value) }
{
    put(
        work,
        n,
        Entry {
            step: own.step,
            kind,
            path: own.place,
            span,
            value,
            place: own.place,
        },
    );
}

#[cycle(read_basic_read_items)]
pub(crate) fn read_basic(
    src: &[u8],
    basic: Basic,
    own: Own,
    from: Cursor,
    left: usize,
    work: &mut Work,
) -> Result<Cursor, Refusal>
    requires { FitBasic src.now basic own from }
    ensures { BasicRead src.now basic own from left work.old work.new result }
{
    match lay(basic) {
        Laid::Plain { kind, value, size } => {
            put_own(work, from.count, own, kind, 1, value);
            Ok(from.drafted(own.size + size))
        }
        Laid::Opened { place } => {
            if left == 0 {
                return Err(Refusal {
                    reason: Reason::TooManyOpenings,
                    place,
                });
            }
            let to = from.drafted(own.size);
            let to = match follows(src, from.at, b']')? {
                Some(closed) => to.moved(closed.next),
                None => read_items(src, to, left - 1, work)?,
            };
            put_own(
                work,
                from.count,
                own,
                Kind::Vector,
                to.count - from.count,
                0,
            );
            Ok(to)
        }
    }
}

// Items up to the closing bracket.
#[cycle(read_basic_read_items)]
fn read_items(src: &[u8], from: Cursor, left: usize, work: &mut Work) -> Result<Cursor, Refusal>
    requires { Fit src.now from }
    ensures { ItemsRead src.now from left work.old work.new result }
{
    let item = Own {
        step: Step::Item,
        place: 0,
        size: 0,
    };
    let mut here = from;
    loop {
        let found = find_basic(src, here.at)?;
        let to = read_basic(src, found.basic, item, here.moved(found.next), left, work)?;
        let Some(comma) = follows(src, to.at, b',')? else {
            return to.pass(src, b']');
        };
        here = to.moved(comma.next);
    }
}
