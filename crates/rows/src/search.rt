// What is looked for among rows.
ghost use Rattle.std.specs.Prelude.{◌≡◌, ℕ, ◌+◌, ◌-◌, ◌*◌, ◌≤◌, ◌<◌};
ghost use Rattle.std.specs.Prelude.{List, length, take, drop};
ghost use Rattle.paper.specs.DecodeAt.{word};
ghost use Rattle.paper.specs.Layout.{deepest};
ghost use Rattle.rows.specs.View.{kept, rows_in};
ghost use Rattle.rows.specs.Search.{seek, found, deeper, text_bytes};

use crate::row::ROWS;
use crate::text::Texts;

// A slice that is said to have so many rows.
#[derive(Clone, Copy)]
pub struct Rows<'a> {
    pub bytes: &'a [u8],
    pub count: usize,
}

impl<'a> Rows<'a> {
    // How many there are to look at, with what their reading needs: all, or none where the slice cannot have so many.
    // No Option: the clause `kept` says 0.
    pub fn kept(self) -> usize
        ensures { (result ≡ kept self.entry.bytes.now self.entry.count)
            × (result ≤ 4096)
            × (result * 16 ≤ length self.entry.bytes.now) }
    {
        if self.count <= ROWS && self.count * 16 <= self.bytes.len() {
            self.count
        } else {
            0
        }
    }

    // A number of two bytes with no loop, for those who read many rows and know that they are there.
    fn half(self, at: usize) -> usize
        requires { at + 2 ≤ length self.bytes.now }
        ensures { (result ≡ word 2 self.entry.bytes.now at) × (result < 65536) }
    {
        usize::from(u16::from_le_bytes([self.bytes[at], self.bytes[at + 1]]))
    }

    // Where the rows of depth d or more that begin at row lo end.
    pub fn end_of(self, lo: usize, d: usize) -> usize
        ensures { (t u : List ℕ) → result
            ≡ lo + deeper d (drop lo (rows_in t u self.entry.bytes.now self.entry.count)) }
    {
        let end = self.kept();
        for i in lo..end {
            if self.half(i * 16 + 2) < d {
                return i;
            }
        }
        lo.max(end)
    }

    // The label is read only where the depth is right: most rows have another. It stands within its callers: else each
    // call hands the rows and both texts on in memory.
    #[inline(always)]
    pub fn child(self, lo: usize, d: usize, texts: Texts<'_>, name: &[u8]) -> Option<usize>
        ensures { found result ≡ seek name.now d
            (drop lo (rows_in texts.entry.list.now texts.entry.table.now self.entry.bytes.now self.entry.count)) lo }
    {
        for i in lo..self.kept() {
            let deep = self.half(i * 16 + 2);
            if deep < d {
                return None;
            }
            if deep == d && texts.is_named(self.half(i * 16 + 4), name) {
                return Some(i);
            }
        }
        None
    }

    // The text bytes of the rows from lo up to hi.
    pub fn text_of(self, lo: usize, hi: usize) -> usize
        ensures { (t u : List ℕ) → result
            ≡ text_bytes (take (hi - lo) (drop lo (rows_in t u self.entry.bytes.now self.entry.count))) }
    {
        let end = self.kept().min(hi);
        let mut sum = 0;
        for i in lo..end {
            sum += self.half(i * 16 + 6);
        }
        sum
    }

    // The greatest depth of the rows from lo up to hi.
    pub fn deepest_of(self, lo: usize, hi: usize) -> usize
        ensures { (t u : List ℕ) → result
            ≡ deepest (take (hi - lo) (drop lo (rows_in t u self.entry.bytes.now self.entry.count))) }
    {
        let end = self.kept().min(hi);
        let mut most = 0;
        for i in lo..end {
            most = most.max(self.half(i * 16 + 2));
        }
        most
    }
}
