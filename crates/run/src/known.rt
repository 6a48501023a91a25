// Records, rows and names that are known to be there.
ghost use Rattle.std.specs.Prelude.{◌*◌, ◌≤◌, ◌<◌, length};

use rows::search::Rows;
use rows::text::Texts;

// The records of a step list, no more than it may have. Which one is meant is an index beside them: it moves on at
// each step, and `record_at(list, i + 1)` is as plain as a struct of both.
#[derive(Clone, Copy)]
pub(crate) struct Records<'a> {
    pub bytes: &'a [u8],
    ghost few: { length bytes.now ≤ 20480 },
}

// The records that are run, and the texts that they and the store's rows point into.
#[derive(Clone, Copy)]
pub(crate) struct Program<'a> {
    pub steps: Records<'a>,
    pub texts: Texts<'a>,
}

// No more rows than a table may have, all of them in their slice.
#[derive(Clone, Copy)]
pub(crate) struct Known<'a> {
    pub rows: Rows<'a>,
    ghost few: { rows.count ≤ 1024 },
    ghost room: { rows.count * 16 ≤ length rows.bytes.now },
}

// The places of a path's names, each u16, no more than a scope and a target can have.
#[derive(Clone, Copy)]
pub(crate) struct Path<'a> {
    pub places: &'a [u8],
    pub count: usize,
    ghost few: { count ≤ 64 },
    ghost room: { count * 2 ≤ length places.now },
}

// How many names stand in the second work slice: those of the statement's scope, and with the target's names all.
// Where a function needs but one of the two, it takes that count alone, k.
#[derive(Clone, Copy)]
pub(crate) struct Names {
    pub scope: usize,
    pub own: usize,
    ghost near: { scope ≤ 32 },
    ghost inner: { scope < own },
    ghost few: { own ≤ 64 },
}
