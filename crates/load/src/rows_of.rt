// The rows, one a record.
ghost use Rattle.std.specs.Prelude.{◌≡◌, ◌<◌};
ghost use Rattle.rows.specs.Change.{row_bytes};
ghost use Rattle.load.specs.Load.{placed, placed_label, placed_value, size_of, loaded_row, loads, load_stored};

use crate::size::{name_size, value_size};
use rows::row::{Row, put_row, row_at};
use rows::search::Rows;
use rows::text::{ELEMENT, SECOND};

const RECORD: usize = 16;

// A place of the table's text, as one of the second text.
fn placed(place: u64) -> u64
    ensures { (result ≡ placed place) × (result < 65536) }
{
    let second = SECOND as u64;
    place % second + second
}

// An element has no name to move.
fn placed_label(label: u16) -> u16
    ensures { result ≡ placed_label label }
{
    if usize::from(label) == ELEMENT {
        label
    } else {
        placed(u64::from(label)) as u16
    }
}

fn placed_value(row: Row) -> u64
    ensures { result ≡ placed_value row.kind row.value }
{
    if row.has_text() {
        placed(row.value)
    } else {
        row.value
    }
}

// What no row can hold is cut off: no table has it.
fn size_of(row: Row, text: &[u8]) -> u16
    ensures { result ≡ size_of text.now row.label row.kind row.value }
{
    let name = name_size(text, usize::from(row.label));
    let value = value_size(text, usize::from(row.kind), row.value as usize);
    ((name + value) % 65536) as u16
}

fn loaded_row(recs: &[u8], text: &[u8], i: usize) -> Row
    ensures { row_bytes result.kind result.depth result.label result.size result.value
        ≡ loaded_row recs.now text.now i }
{
    let row = row_at(recs, i);
    Row {
        label: placed_label(row.label),
        size: size_of(row, text),
        value: placed_value(row),
        ..row
    }
}

// The records of a table and its text: one row each, at the front of w. The answer counts the rows.
pub fn load(recs: &[u8], text: &[u8], w: &mut [u8]) -> usize
    ensures { (w.new ≡ load_stored recs.now text.now w.old) × (result ≡ loads recs.now w.old) }
{
    let n = Rows {
        bytes: w,
        count: recs.len() / RECORD,
    }
    .kept();
    for i in 0..n {
        put_row(w, i, loaded_row(recs, text, i));
    }
    n
}
