// The table of a component's attributes, written from the records and the text that they have in a whole table.
ghost use Rattle.std.specs.Prelude.{◌≡◌, ◌+◌, ◌*◌, ◌≤◌, ◌<◌, length};
ghost use Rattle.paper.specs.DecodeAt.{word};
ghost use Rattle.memory.specs.Memory.{stored};
ghost use Rattle.main_table.specs.Lower.{moved_label, moved_value, lowered, lowered_all};
ghost use Rattle.main_table.specs.Lower.{text_from, text_to, lowered_table, Lowerable};

use fields::{label_at, span_at};
use forms::{Form, HEADER, NAMELESS, TABLE_RECORD, put_header};
use layout::Body;
use memory::{copy, get16, get64, part};
use rows::row::Row;
use texts::byte;

fn moved_label(place: u16, from: u16) -> u16
    ensures { result ≡ moved_label from place }
{
    if place == NAMELESS {
        place
    } else {
        place.saturating_sub(from)
    }
}

fn moved_value(row: Row, from: u16) -> u64
    ensures { result ≡ moved_value from row.kind row.value }
{
    if row.has_text() {
        row.value.saturating_sub(u64::from(from))
    } else {
        row.value
    }
}

fn lower_row(recs: &[u8], i: usize, from: u16, out: &mut [u8], at: usize)
    requires { (i + 16 ≤ length recs.now) × (at + 16 ≤ length out.old) }
    ensures { out.new ≡ stored out.old at (lowered recs.now i from) }
{
    let row = Row {
        kind: get16(recs, i),
        depth: get16(recs, i + 2),
        label: get16(recs, i + 4),
        size: get16(recs, i + 6),
        value: get64(recs, i + 8),
    };
    let lower = Row {
        depth: row.depth.saturating_sub(1),
        label: moved_label(row.label, from),
        value: moved_value(row, from),
        ..row
    };
    lower.store(out, at);
}

fn lower_rows(recs: &[u8], first: usize, n: usize, from: u16, out: &mut [u8])
    requires { (first + 16 * n ≤ length recs.now) × (24 + 16 * n ≤ length out.old) }
    ensures { out.new ≡ stored out.old 24 (lowered_all recs.now first from n) }
{
    for k in 0..n {
        lower_row(
            recs,
            first + TABLE_RECORD * k,
            from,
            out,
            HEADER + TABLE_RECORD * k,
        );
    }
}

fn text_end(body: Body, next: usize) -> usize
    requires { next < length body.records.now → next + 16 ≤ length body.records.now }
    ensures { result ≡ text_to body.entry.records.now body.entry.text.now next }
{
    if next < body.records.len() {
        label_at(body.records, next)
    } else {
        body.text.len()
    }
}

fn text_start(body: Body, i: usize) -> usize
    requires { i + 16 ≤ length body.records.now }
    ensures { result ≡ text_from body.entry.records.now body.entry.text.now i }
{
    let p = label_at(body.records, i);
    p + 1 + byte(body.text, p)
}

// The table of the component at i.
pub(crate) fn lower_table(body: Body, i: usize, out: &mut [u8]) -> usize
    requires { (Lowerable body.records.now body.text.now i) × (32792 ≤ length out.old) }
    ensures written { out.new ≡ stored out.old 0 (lowered_table body.entry.records.now body.entry.text.now i) }
    ensures size { result ≡ length (lowered_table body.entry.records.now body.entry.text.now i) }
{
    let Body { records, text } = body;
    let n = span_at(records, i) - 1;
    let from = text_start(body, i);
    let size = text_end(body, i + TABLE_RECORD + TABLE_RECORD * n) - from;
    let place = HEADER + TABLE_RECORD * n;
    put_header(Form::Table, out, n as u16, size as u32);
    lower_rows(records, i + TABLE_RECORD, n, from as u16, out);
    copy(out, place, part(text, from, size));
    place + size
}
