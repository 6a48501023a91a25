// The texts of a row: its name's, and its value's.
ghost use Rattle.std.specs.Prelude.{◌≡◌, ◌+◌, ◌≤◌, length};
ghost use Rattle.paper.specs.Layout.{text_of, row_text};
ghost use Rattle.memory.specs.Memory.{stored};
ghost use Rattle.rows.specs.Row.{row_seen};

use memory::copy;
use rows::row::Row;
use rows::text::{ELEMENT, Texts};

pub(crate) fn label_text<'a>(row: Row, texts: Texts<'a>) -> &'a [u8]
    ensures { (result.now ≡ text_of (row_seen texts.entry.list.now texts.entry.table.now row).label)
        × (length result.now ≤ 256) }
{
    let place = usize::from(row.label);
    if place == ELEMENT {
        &[]
    } else {
        texts.part(place, 1 + texts.byte_of(place))
    }
}

// What the node has in all, less its name's text.
pub(crate) fn value_text<'a>(row: Row, texts: Texts<'a>) -> &'a [u8]
    ensures { (result.now ≡ text_of (row_seen texts.entry.list.now texts.entry.table.now row).value)
        × (length result.now ≤ 65535) }
{
    if row.has_text() {
        let name = label_text(row, texts);
        texts.part(
            row.value as usize,
            usize::from(row.size).saturating_sub(name.len()),
        )
    } else {
        &[]
    }
}

pub(crate) fn row_size(row: Row, texts: Texts<'_>) -> usize
    ensures { (result ≡ length (row_text (row_seen texts.entry.list.now texts.entry.table.now row)))
        × (result ≤ 65791) }
{
    label_text(row, texts).len() + value_text(row, texts).len()
}

pub(crate) fn put_texts(row: Row, texts: Texts<'_>, out: &mut [u8], at: usize) -> usize
    requires { at + length (row_text (row_seen texts.list.now texts.table.now row)) ≤ length out.old }
    ensures { (out.new ≡ stored out.old at (row_text (row_seen texts.entry.list.now texts.entry.table.now row)))
        × (result ≡ at + length (row_text (row_seen texts.entry.list.now texts.entry.table.now row))) }
{
    let label = label_text(row, texts);
    let value = value_text(row, texts);
    let mid = at + label.len();
    copy(out, at, label);
    copy(out, mid, value);
    mid + value.len()
}
