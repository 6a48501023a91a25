// Statements, prototype lists and blocks: readers that call one another. Each call is on a shorter rest of the source.
ghost use Rattle.std.specs.Prelude.{◌≡◌, ◌≤◌, length};
ghost use Rattle.grammar.specs.Readers.{Fit, FitValue, FitLink};
ghost use Rattle.grammar.specs.Readers.{StatementsRead, ValueRead, LinkRead, PrototypesRead, BlockRead};

use crate::cursor::Cursor;
use crate::draft::{Entry, Work, put, put_bare, put_path};
use crate::path::{Reference, read_reference};
use crate::token::{expect, follows};
use crate::value::{Value, find_value};
use crate::vectors::{Own, read_basic};
use kinds::{Kind, Step};
use refusal::{Reason, Refusal};
use tokens::Kind as TokenKind;

#[cycle(read_block_read_prototypes_read_statements_read_value)]
pub(crate) fn read_statements(
    src: &[u8],
    from: Cursor,
    left: usize,
    work: &mut Work,
) -> Result<Cursor, Refusal>
    requires { Fit src.now from }
    ensures { StatementsRead src.now from left work.old work.new result }
{
    let mut here = from;
    while let Some(target) = read_reference(src, here.at)? {
        here = read_value(src, target, here.moved(target.next), left, work)?;
    }
    Ok(here)
}

// A link, up to its `;`.
fn read_link(
    src: &[u8],
    target: Reference,
    link: Reference,
    from: Cursor,
    work: &mut Work,
) -> Result<Cursor, Refusal>
    requires { FitLink src.now target link from }
    ensures { LinkRead src.now target link from work.old work.new result }
{
    put(
        work,
        from.count,
        Entry {
            step: Step::Link,
            kind: Kind::Component,
            path: target.place,
            span: 0,
            value: link.place as u64,
            place: link.place,
        },
    );
    from.drafted(target.size + link.size).pass(src, b';')
}

#[cycle(read_block_read_prototypes_read_statements_read_value)]
fn read_value(
    src: &[u8],
    target: Reference,
    from: Cursor,
    left: usize,
    work: &mut Work,
) -> Result<Cursor, Refusal>
    requires { FitValue src.now target from }
    ensures { ValueRead src.now target from left work.old work.new result }
{
    let found = find_value(src, from.at)?;
    let here = from.moved(found.next);
    match found.value {
        Value::Basic(basic) => {
            let own = Own {
                step: Step::Set,
                place: target.place,
                size: target.size,
            };
            let to = read_basic(src, basic, own, here, left, work)?;
            to.pass(src, b';')
        }
        Value::Link(link) => read_link(src, target, link, here, work),
        Value::Extends => {
            put_path(work, here.count, Step::Make, target.place);
            let to = read_prototypes(src, here.drafted(target.size), left, work)?;
            put_bare(work, to.count, Step::Done);
            Ok(to.drafted(0))
        }
    }
}

#[cycle(read_block_read_prototypes_read_statements_read_value)]
fn read_prototypes(
    src: &[u8],
    from: Cursor,
    left: usize,
    work: &mut Work,
) -> Result<Cursor, Refusal>
    requires { Fit src.now from }
    ensures { PrototypesRead src.now from left work.old work.new result }
{
    let mut here = from;
    loop {
        if let Some(prototype) = read_reference(src, here.at)? {
            put_path(work, here.count, Step::Take, prototype.place);
            let to = here.moved(prototype.next).drafted(prototype.size);
            let Some(comma) = follows(src, to.at, b',')? else {
                return to.pass(src, b';');
            };
            here = to.moved(comma.next);
        } else {
            let to = read_block(src, here, left, work)?;
            let Some(comma) = follows(src, to.at, b',')? else {
                return Ok(to);
            };
            here = to.moved(comma.next);
        }
    }
}

// A block in its braces.
#[cycle(read_block_read_prototypes_read_statements_read_value)]
fn read_block(src: &[u8], from: Cursor, left: usize, work: &mut Work) -> Result<Cursor, Refusal>
    requires { Fit src.now from }
    ensures { BlockRead src.now from left work.old work.new result }
{
    let opened = expect(src, from.at, TokenKind::Mark(b'{'))?;
    if left == 0 {
        return Err(Refusal {
            reason: Reason::TooManyOpenings,
            place: opened.place,
        });
    }
    put_bare(work, from.count, Step::Enter);
    let inside = from.moved(opened.next).drafted(0);
    let to = read_statements(src, inside, left - 1, work)?;
    let closed = expect(src, to.at, TokenKind::Mark(b'}'))?;
    put_bare(work, to.count, Step::Leave);
    Ok(to.moved(closed.next).drafted(0))
}
