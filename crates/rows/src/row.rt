// One row: its numbers, and how it is written.
ghost use Rattle.std.specs.Prelude.{◌≡◌, ◌&&◌, ◌≤◌, leb};
ghost use Rattle.memory.specs.Memory.{stored};
ghost use Rattle.rows.specs.Change.{field_at, row_bytes, row_stored};
ghost use Rattle.rows.specs.Row.{row_of};

use kinds::Kind;
use memory::{fits, get16, get64, put16, put64};

// As many rows as a work slice has room for.
pub const ROWS: usize = 4096;

// The numbers of a row, in the order of its 16 bytes. kind is no Kind: any number may stand there (clause `row_of`).
#[derive(Clone, Copy)]
pub struct Row {
    pub kind: u16,
    pub depth: u16,
    pub label: u16,
    pub size: u16,
    pub value: u64,
}

impl Row {
    // Whether its value is the place of a text: of kinds 4 to 6.
    pub fn has_text(self) -> bool
        ensures { result ≡ (leb 4 self.kind && leb self.kind 6) }
    {
        matches!(
            Kind::try_from(self.kind),
            Ok(Kind::Decimal | Kind::Text | Kind::Reference)
        )
    }

    // Its bytes at a place; where they do not all fit, none is written.
    pub fn store(self, out: &mut [u8], at: usize)
        ensures { out.new ≡ stored out.old at (row_bytes self.kind self.depth self.label self.size self.value) }
    {
        if !fits(out.len(), at, 16) {
            return;
        }
        put16(out, at, self.kind);
        put16(out, at + 2, self.depth);
        put16(out, at + 4, self.label);
        put16(out, at + 6, self.size);
        put64(out, at + 8, self.value);
    }
}

fn field(w: &[u8], i: usize, f: usize) -> u16
    requires { f ≤ 16 }
    ensures { result ≡ field_at 2 w.now i f }
{
    if i < ROWS { get16(w, i * 16 + f) } else { 0 }
}

// One number of a row, for who wants no other. As methods of a struct of `w` and `i` they would be no plainer.
pub fn kind_at(w: &[u8], i: usize) -> u16
    ensures { result ≡ field_at 2 w.now i 0 }
{
    field(w, i, 0)
}

pub fn depth_at(w: &[u8], i: usize) -> u16
    ensures { result ≡ field_at 2 w.now i 2 }
{
    field(w, i, 2)
}

pub fn label_at(w: &[u8], i: usize) -> u16
    ensures { result ≡ field_at 2 w.now i 4 }
{
    field(w, i, 4)
}

pub fn size_at(w: &[u8], i: usize) -> u16
    ensures { result ≡ field_at 2 w.now i 6 }
{
    field(w, i, 6)
}

pub fn value_at(w: &[u8], i: usize) -> u64
    ensures { result ≡ field_at 8 w.now i 8 }
{
    if i < ROWS { get64(w, i * 16 + 8) } else { 0 }
}

pub fn row_at(w: &[u8], i: usize) -> Row
    ensures { result ≡ row_of w.now i }
{
    Row {
        kind: kind_at(w, i),
        depth: depth_at(w, i),
        label: label_at(w, i),
        size: size_at(w, i),
        value: value_at(w, i),
    }
}

// A row that does not fit is not written, not even in part.
pub fn put_row(w: &mut [u8], i: usize, row: Row)
    ensures { w.new ≡ row_stored w.old i (row_bytes row.kind row.depth row.label row.size row.value) }
{
    if i < ROWS {
        row.store(w, i * 16);
    }
}
