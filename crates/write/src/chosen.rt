// The rows of a slice from one index up to another.
ghost use Rattle.std.specs.Prelude.{◌≡◌, ◌*◌, ◌≤◌, length, min};
ghost use Rattle.rows.specs.View.{kept};

use rows::search::Rows;

#[derive(Clone, Copy)]
pub(crate) struct Chosen<'a> {
    pub bytes: &'a [u8],
    pub first: usize,
    pub last: usize,
    ghost few: { last ≤ 4096 },
    ghost within: { last * 16 ≤ length bytes.now },
    ghost on: { first ≤ last },
}

impl<'a> Chosen<'a> {
    // Those from lo up to hi that there are.
    pub(crate) fn new(rows: Rows<'a>, lo: usize, hi: usize) -> Self
        ensures bytes { result.bytes.now ≡ rows.entry.bytes.now }
        ensures last { result.last ≡ min (kept rows.entry.bytes.now rows.entry.count) hi }
        ensures first { result.first ≡ min lo result.last }
    {
        let last = rows.kept().min(hi);
        let first = lo.min(last);
        Chosen {
            bytes: rows.bytes,
            first,
            last,
        }
    }
}
