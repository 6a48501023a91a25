// The value of a set, as rows.
ghost use Rattle.std.specs.Prelude.{◌≡◌, ◌+◌, ◌≤◌, ◌<◌, length, drop};
ghost use Rattle.rows.specs.Change.{row_stored};
ghost use Rattle.run.specs.Listed.{SetIn};
ghost use Rattle.run.specs.Items.{row_of, ItemsIn};

use crate::known::Records;
use crate::list::record_at;
use crate::size::{RECORDS, Work};
use load::{name_size, value_size};
use rows::row::{Row, put_row};
use rows::text::ELEMENT;

// Record i as row q.
fn put_record(
    list: Records<'_>,
    i: usize,
    t: &[u8],
    s: &mut Work,
    q: usize,
    label: usize,
    depth: usize,
)
    requires { (i ≤ 1024) × (label < 65536) × (depth < 65536) }
    ensures { s.new ≡ row_stored s.old q (row_of list.entry.bytes.now t.now i label depth) }
{
    let record = record_at(list, i);
    let bytes = name_size(t, label)
        + value_size(t, usize::from(record.kind), record.value as usize);
    let row = Row {
        kind: record.kind,
        depth: depth as u16,
        label: label as u16,
        size: (bytes % 65536) as u16,
        value: record.value,
    };
    put_row(s, q, row);
}

// The n items from record i on, as rows from q on; the span of each has its elements, which are one deeper.
// The items of a step list fill the set's span, so there is no refusal to tell: a span that leads outside ends them.
fn items(list: Records<'_>, i: usize, n: usize, t: &[u8], s: &mut Work, q: usize, depth: usize)
    requires { (i + n ≤ 1024) × (q + n ≤ 1024) × (depth + n ≤ 2048) }
    ensures { ItemsIn list.entry.bytes.now t.now i n q depth s.old s.new }
{
    let mut k: usize = 0;
    // The next item stands behind the elements of this one: there is no range to go over.
    while k < n {
        let m = record_at(list, i + k).span;
        if m == 0 || n - k < m {
            return;
        }
        put_record(list, i + k, t, s, q + k, ELEMENT, depth);
        items(list, i + k + 1, m - 1, t, s, q + k + 1, depth + 1);
        k += m;
    }
}

// The set at record i, under the name at `label`: as many rows as its span says. A count and no Option: in a step list
// no span leads outside, so a caller would have no reason to refuse with.
pub(crate) fn set_rows<'a>(
    list: Records<'a>,
    i: usize,
    t: &[u8],
    s: &mut Work,
    label: usize,
    depth: usize,
) -> usize
    requires { (i < 1024) × (depth ≤ 100) × (label < 32768) }
    ensures { (result ≤ 1024) × (drop 32768 s.new ≡ drop 32768 s.old)
        × (SetIn list.entry.bytes.now t.now i label depth s.old s.new result) }
{
    let m = record_at(list, i).span;
    if m == 0 || RECORDS - i < m {
        return 0;
    }
    put_record(list, i, t, s, 0, label, depth);
    items(list, i + 1, m - 1, t, s, 1, depth + 1);
    m
}
