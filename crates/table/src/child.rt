// A look among the attributes of a component, in the records of a table.
ghost use Rattle.std.specs.Prelude.{◌≡◌};
ghost use Rattle.table.specs.Child.{named_at, SpanIs, found_in};

use fields::{label_at, span_at};
use forms::TABLE_RECORD;
use layout::Body;
use memory::{fits, part};
use texts::byte;

// The name of a record; none where its text lies outside.
pub(crate) fn name_at<'a>(body: Body<'a>, i: usize) -> &'a [u8]
    ensures { result.now ≡ named_at body.entry.records.now body.entry.text.now i }
{
    let Body { records, text } = body;
    let p = label_at(records, i);
    part(text, p + 1, byte(text, p))
}

// The span of a record; none where it would lead outside.
// Not `then_some`: it would hold the same three tests, the other way round.
pub(crate) fn span_within(records: &[u8], i: usize, left: usize) -> Option<usize>
    ensures { SpanIs records.now i left result }
{
    if !fits(records.len(), i, TABLE_RECORD) {
        return None;
    }
    let span = span_at(records, i);
    let past = left < span;
    if span == 0 || past || !fits(records.len(), i, TABLE_RECORD * span) {
        return None;
    }
    Some(span)
}

// The attribute of this name among n records. It stands within the search for a name that stands twice.
#[inline(always)]
pub fn find_child(body: Body, from: usize, n: usize, name: &[u8]) -> Option<usize>
    ensures { result ≡ found_in body.entry.records.now body.entry.text.now from n name.now }
{
    let mut i = from;
    let mut left = n;
    // A turn passes an attribute, which spans one record or more: there is no range to go over.
    while 0 < left {
        let span = span_within(body.records, i, left)?;
        if name_at(body, i) == name {
            return Some(i);
        }
        i += TABLE_RECORD * span;
        left -= span;
    }
    None
}
