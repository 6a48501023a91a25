// Records of basics: where those of one, and those of a vector's elements, end, if they are as they should be.
ghost use Rattle.std.specs.Prelude.{◌≡◌, ◌≤◌, length};
ghost use Rattle.layout.specs.Bytes.{AreBytes};
ghost use Rattle.layout.specs.Walk.{heads, WalkIs, Inside, basic_here, elements_here};

use fields::{span_at, value_at};
use forms::Form;
use kinds::Kind;
use memory::fits;
use texts::leaf;

const DEEPEST: usize = 32;

// How many nodes a basic spans that is no vector.
const LEAF: usize = 1;

// What follows the header: the records, and their text.
#[derive(Clone, Copy)]
pub struct Body<'a> {
    pub records: &'a [u8],
    pub text: &'a [u8],
    // As of every slice of bytes: each is below 256.
    ghost are_bytes: { AreBytes records.now },
}

// Where a reader stands: at a byte of the records, and at one of the text.
#[derive(Clone, Copy, Debug, PartialEq, Eq)]
pub struct Place {
    pub record: usize,
    pub text: usize,
}

// What is asked of every node: it lies within, no deeper than the bound, and spans one node or more,
// and no more than are left.
pub fn head(form: Form, records: &[u8], i: usize, depth: usize, left: usize) -> bool
    ensures { result ≡ heads form records.now i depth left }
{
    let span = span_at(records, i);
    let within = fits(records.len(), i, form.size()) && depth <= DEEPEST;
    let spanned = 1 <= span && span <= left;
    within && spanned
}

// The basic at a record, which spans so many.
#[cycle(basic_elements)]
pub fn basic(form: Form, body: Body, depth: usize, span: usize, at: Place) -> Option<Place>
    ensures { WalkIs
        (basic_here form body.entry.records.now body.entry.text.now depth span at.record at.text)
        body.entry.records.now body.entry.text.now result
        × Inside body.entry.records.now result }
{
    let Body { records, text } = body;
    let size = form.size();
    if !fits(records.len(), at.record, size) {
        return None;
    }
    let next = at.record + size;
    let kind = form.kind_of(records, at.record);
    let value = value_at(records, at.record);
    if kind == Kind::Vector.number() {
        if value != 0 || form.top() < depth {
            return None;
        }
        let first = Place { record: next, ..at };
        return elements(form, body, depth + 1, span.saturating_sub(1), first);
    }
    if span != LEAF {
        return None;
    }
    let end = leaf(text, usize::from(kind), value, at.text)?;
    Some(Place {
        record: next,
        text: end,
    })
}

#[cycle(basic_elements)]
fn elements(form: Form, body: Body, depth: usize, n: usize, first: Place) -> Option<Place>
    requires { first.record ≤ length body.records.now }
    ensures { WalkIs
        (elements_here form body.entry.records.now body.entry.text.now depth n first.record first.text)
        body.entry.records.now body.entry.text.now result
        × Inside body.entry.records.now result }
{
    let Body { records, .. } = body;
    let mut at = first;
    let mut left = n;
    // A turn passes an element, which spans one node or more: there is no range to go over.
    while 0 < left {
        if !head(form, records, at.record, depth, left)
            || !form.element_fits(records, at.record, depth)
        {
            return None;
        }
        let span = span_at(records, at.record);
        at = basic(form, body, depth, span, at)?;
        left -= span;
    }
    Some(at)
}
