// The size of a store, and the slices that a run works in, with what stands where.
ghost use Rattle.std.specs.Prelude.{◌≤◌};

// How many rows a store has, and how many text bytes: no more than a table may have.
#[derive(Clone, Copy)]
pub(crate) struct Size {
    pub rows: usize,
    pub text: usize,
    ghost few: { rows ≤ 1024 },
    ghost short: { text ≤ 16384 },
}

// As many records as a step list may have; a table's bound on its nodes (put.rt) is another, of the same number.
pub(crate) const RECORDS: usize = 1024;

// Bytes of a row.
pub(crate) const ROW: usize = 16;

// Where the names of scope and target stand in the second work slice.
pub(crate) const PATH: usize = 32768;

// A work slice, as far as it is used: the first, w, holds the store's rows, the second, s, new rows and names.
// They are two parameters, since one is often read while the other is written; w and its size are two as well, since
// one Result then tells the store's new size or the reason why it has none.
pub(crate) type Work = [u8; 65536];
