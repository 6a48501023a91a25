// The whole table: header, records, text.
ghost use Rattle.std.specs.Prelude.{◌≡◌, ◌+◌, ◌*◌, ◌-◌, ◌≤◌, length, drop};
ghost use Rattle.paper.specs.Layout as Layout;
ghost use Rattle.memory.specs.Memory.{stored};
ghost use Rattle.rows.specs.View.{view};
ghost use Rattle.write.specs.Tabled.{spanned, tabled, chosen, fitted};
ghost use Rattle.write.specs.Lay.{lay};

use crate::chosen::Chosen;
use crate::text::{put_texts, row_size};
use forms::{Form, HEADER, TABLE_RECORD as RECORD, put_header};
use rows::row::row_at;
use rows::search::Rows;
use rows::text::Texts;

impl Chosen<'_> {
    // The text is measured first, so that nothing is written where it does not all fit.
    fn text_size(self, texts: Texts<'_>) -> usize
        ensures { (result ≡ length (Layout.texts
            (drop self.entry.first
            (view texts.entry.list.now texts.entry.table.now self.entry.bytes.now self.entry.last))))
            × (result ≤ 269479936) }
    {
        let mut sum = 0;
        for i in self.first..self.last {
            sum += row_size(row_at(self.bytes, i), texts);
        }
        sum
    }

    fn put_rows(self, up: usize, texts: Texts<'_>, out: &mut [u8])
        requires { 24 + 16 * (self.last - self.first)
            + length (Layout.texts (drop self.first (view texts.list.now texts.table.now self.bytes.now self.last)))
            ≤ length out.old }
        ensures { out.new ≡ lay (24 + 16 * (self.entry.last - self.entry.first)) out.old 24 0
            (spanned up (drop self.entry.first
            (view texts.entry.list.now texts.entry.table.now self.entry.bytes.now self.entry.last))) }
    {
        let base = HEADER + RECORD * (self.last - self.first);
        // Carried on beside pos: HEADER + RECORD * (i - self.first) in each turn is no plainer.
        let mut at = HEADER;
        let mut pos = base;
        for i in self.first..self.last {
            self.record_of(i, up, texts, pos - base).store(out, at);
            pos = put_texts(row_at(self.bytes, i), texts, out, pos);
            at += RECORD;
        }
    }
}

// The rows from lo up to hi as a table's bytes at the front of out, `up` less deep. The answer counts the bytes that
// are written: all, or 0 where they do not all fit (no Option: the clause `fitted` of `write` says 0).
pub fn write(
    rows: Rows<'_>,
    lo: usize,
    hi: usize,
    up: usize,
    texts: Texts<'_>,
    out: &mut [u8],
) -> usize
    ensures { (out.new ≡ stored out.old 0 (tabled up
        (chosen texts.entry.list.now texts.entry.table.now rows.entry.bytes.now rows.entry.count lo hi)))
        × (result ≡ fitted (tabled up
        (chosen texts.entry.list.now texts.entry.table.now rows.entry.bytes.now rows.entry.count lo hi)) out.old) }
{
    let chosen = Chosen::new(rows, lo, hi);
    let n = chosen.last - chosen.first;
    let size = chosen.text_size(texts);
    let total = HEADER + RECORD * n + size;
    if out.len() < total {
        return 0;
    }
    put_header(Form::Table, out, n as u16, size as u32);
    chosen.put_rows(up, texts, out);
    total
}
