// One record of a table.
ghost use Rattle.std.specs.Prelude.{◌≡◌, List, ℕ, suc, ◌%◌, ◌^◌, ◌<◌, drop};
ghost use Rattle.paper.specs.Layout.{figure};
ghost use Rattle.paper.specs.Layout as Layout;
ghost use Rattle.rows.specs.View.{label_of, view};
ghost use Rattle.rows.specs.Change.{row_bytes, row_here};
ghost use Rattle.rows.specs.Row.{row_seen};
ghost use Rattle.write.specs.Tabled.{spanned_row};

use crate::chosen::Chosen;
use crate::text::label_text;
use rows::row::{Row, depth_at, row_at};
use rows::search::Rows;
use rows::text::{ELEMENT, Texts};

// What stands in the record for a name whose text begins at pos; what no table has is cut off.
fn label_figure(label: u16, pos: usize) -> u16
    ensures { (t u : List ℕ) → result ≡ figure pos (label_of t u label) % 65536 }
{
    if usize::from(label) == ELEMENT {
        label
    } else {
        (pos % 65536) as u16
    }
}

// And for a value, if it has a text.
fn value_figure(row: Row, pos: usize) -> u64
    ensures { (t u : List ℕ) → result ≡ figure pos (row_seen t u row).value }
{
    if row.has_text() {
        pos as u64
    } else {
        row.value
    }
}

impl Chosen<'_> {
    // The span is counted from the depths that follow: rows keep none.
    fn span_of(self, i: usize) -> u16
        requires { i < self.last }
        ensures { (t u : List ℕ) → result ≡ (spanned_row 0
            (row_here t u self.entry.bytes.now i)
            (drop (suc i) (view t u self.entry.bytes.now self.entry.last))).span }
    {
        let rows = Rows {
            bytes: self.bytes,
            count: self.last,
        };
        let depth = usize::from(depth_at(self.bytes, i));
        (rows.end_of(i + 1, depth + 1) - i) as u16
    }

    // Row i as a record, `up` less deep, its text at pos of the text.
    pub(crate) fn record_of(self, i: usize, up: usize, texts: Texts<'_>, pos: usize) -> Row
        requires { (i < self.last) × (pos < 2 ^ 63) }
        ensures { row_bytes result.kind result.depth result.label result.size result.value
            ≡ Layout.row_bytes pos (spanned_row up
            (row_here texts.entry.list.now texts.entry.table.now self.entry.bytes.now i)
            (drop (suc i)
            (view texts.entry.list.now texts.entry.table.now self.entry.bytes.now self.entry.last))) }
    {
        let row = row_at(self.bytes, i);
        let name = label_text(row, texts);
        Row {
            depth: usize::from(row.depth).saturating_sub(up) as u16,
            label: label_figure(row.label, pos),
            size: self.span_of(i),
            value: value_figure(row, pos + name.len()),
            ..row
        }
    }
}
