// Records of a table: where those of an attribute's value, and of a component's attributes, end,
// if they are as they should be.
ghost use Rattle.std.specs.Prelude.{◌≡◌, ◌+◌, ◌≤◌, length};
ghost use Rattle.layout.specs.Walk.{WalkIs};
ghost use Rattle.table.specs.Walk.{heads, Headed, LabelIs, value_here, entries_here};

use fields::{depth_at, kind_at, label_at, span_at, value_at};
use forms::{Form, TABLE_RECORD};
use kinds::Kind;
use layout::{Body, Place, basic};
use texts::name_here;

fn head(records: &[u8], i: usize, depth: usize, left: usize) -> bool
    ensures { result ≡ heads records.now i depth left }
{
    layout::head(Form::Table, records, i, depth, left) && depth_at(records, i) == depth
}

fn label_end(body: Body, at: Place) -> Option<usize>
    requires { at.record + 16 ≤ length body.records.now }
    ensures { LabelIs body.entry.records.now body.entry.text.now at.record at.text result }
{
    name_here(body.text, label_at(body.records, at.record), at.text)
}

// An attribute's value.
#[cycle(entries_value)]
fn value(body: Body, depth: usize, span: usize, at: Place) -> Option<Place>
    requires { Headed body.records.now at.record depth span }
    ensures { WalkIs (value_here body.entry.records.now body.entry.text.now depth at.record at.text)
        body.entry.records.now body.entry.text.now result }
{
    if kind_at(body.records, at.record) != Kind::Component.number() {
        return basic(Form::Table, body, depth, span, at);
    }
    if value_at(body.records, at.record) != 0 {
        return None;
    }
    let first = Place {
        record: at.record + TABLE_RECORD,
        ..at
    };
    entries(body, depth + 1, span - 1, first)
}

// A component's attributes.
#[cycle(entries_value)]
pub(crate) fn entries(body: Body, depth: usize, n: usize, first: Place) -> Option<Place>
    ensures { WalkIs (entries_here body.entry.records.now body.entry.text.now depth n first.record first.text)
        body.entry.records.now body.entry.text.now result }
{
    let mut at = first;
    let mut left = n;
    // A turn passes an attribute, which spans one record or more: there is no range to go over.
    while 0 < left {
        if !head(body.records, at.record, depth, left) {
            return None;
        }
        let span = span_at(body.records, at.record);
        let text = label_end(body, at)?;
        at = value(body, depth, span, Place { text, ..at })?;
        left -= span;
    }
    Some(at)
}
