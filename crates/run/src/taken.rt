// Values taken out of the store before the first put: copies of their rows, at the depth where they will stand.
ghost use Rattle.std.specs.Prelude.{◌≡◌, ◌-◌, ◌*◌, ◌%◌, ◌≤◌, ◌<◌, length, drop};
ghost use Rattle.run.specs.Takes.{AttributesTaken, ValueTaken};

use crate::size::{Size, Work};
use moves::lift;
use rows::row::{Row, put_row, row_at};
use rows::search::Rows;
use rows::text::Texts;

// The attributes of the component at row j, from depth d on; how many rows they are.
pub(crate) fn attributes(w: &Work, size: Size, j: usize, s: &mut Work, d: usize) -> usize
    requires { (j < size.rows) × (1 ≤ d) × (d ≤ 100) }
    ensures { (result ≤ 1024) × (drop 32768 s.new ≡ drop 32768 s.old)
        × (AttributesTaken w.now size.rows j d s.new result) }
{
    let own = usize::from(row_at(w, j).depth);
    let store = Rows {
        bytes: w,
        count: size.rows,
    };
    let e = store.end_of(j + 1, own + 1);
    lift(w, j + 1, e, s, 0, own + 1, d);
    e - (j + 1)
}

// The value at row j, under the name at `label` and at depth d; how many rows it has.
pub(crate) fn value<'a>(
    w: &Work,
    size: Size,
    j: usize,
    s: &mut Work,
    label: usize,
    d: usize,
    texts: Texts<'a>,
) -> usize
    requires { (j < size.rows) × (d ≤ 100) × (label < 32768) }
    ensures { (result ≤ 1024) × (drop 32768 s.new ≡ drop 32768 s.old)
        × (ValueTaken texts.entry.list.now texts.entry.table.now w.now size.rows j label d s.new result) }
{
    let row = row_at(w, j);
    let own = usize::from(row.depth);
    let store = Rows {
        bytes: w,
        count: size.rows,
    };
    let e = store.end_of(j + 1, own + 1);
    let bytes = usize::from(row.size) + texts.byte_of(label);
    let old = texts.byte_of(usize::from(row.label));
    let renamed = Row {
        kind: row.kind,
        depth: d as u16,
        label: label as u16,
        size: (bytes.saturating_sub(old) % 65536) as u16,
        value: row.value,
    };
    put_row(s, 0, renamed);
    lift(w, j + 1, e, s, 1, own + 1, d + 1);
    e - j
}
