// Rows replaced, and rows copied to another depth.
#![tactic(auto)]

ghost use Rattle.std.specs.Prelude.{◌≡◌, ◌&&◌, ◌+◌, ◌-◌, ◌*◌, ◌≤◌, leb};
ghost use Rattle.rows.specs.Change.{spliced, moved, lift_stored};

use memory::{copy, part, slide};
use rows::row::{ROWS, Row, put_row, row_at};
use rows::search::Rows;

// Whether the rows from lo up to hi, of n in a slice of so many bytes, can be replaced by m rows of another.
fn fits_in(size: usize, n: usize, lo: usize, hi: usize, have: usize, m: usize) -> bool
    ensures { result
        ≡ (leb lo hi && (leb hi n && (leb (n + m) 4096 && (leb ((n + m) * 16) size && leb (m * 16) have)))) }
{
    lo <= hi && hi <= n && n <= ROWS && m <= ROWS - n && (n + m) * 16 <= size && m * 16 <= have
}

// The rows behind are moved first, so that the new ones overwrite none of them.
// w and its count are two, since Rows borrows its bytes to be read, and these are changed.
pub fn splice(w: &mut [u8], n: usize, lo: usize, hi: usize, new: Rows<'_>)
    ensures { w.new ≡ spliced w.old n lo hi new.entry.bytes.now new.entry.count }
{
    let m = new.count;
    if fits_in(w.len(), n, lo, hi, new.bytes.len(), m) {
        slide(w, hi * 16, (lo + m) * 16, (n - hi) * 16);
        copy(w, lo * 16, part(new.bytes, 0, m * 16));
    }
}

fn shifted(deep: u16, from: usize, to: usize) -> u16
    requires { to ≤ 65535 }
    ensures { result ≡ moved from to deep }
{
    let x = (usize::from(deep) + to).saturating_sub(from);
    (x % 65536) as u16
}

// Whether the rows from lo up to hi of a slice can be copied to the rows from q on of another.
fn lifts_in(size: usize, lo: usize, hi: usize, have: usize, q: usize, to: usize) -> bool
    ensures { result
        ≡ (leb lo hi && (leb hi 4096 && (leb (hi * 16) size
        && (leb (q + (hi - lo)) 4096 && (leb ((q + (hi - lo)) * 16) have && leb to 65535))))) }
{
    lo <= hi
        && hi <= ROWS
        && hi * 16 <= size
        && q <= ROWS - (hi - lo)
        && (q + (hi - lo)) * 16 <= have
        && to <= 65535
}

// No struct of the five numbers: each caller would build it for one call, which is no plainer.
pub fn lift(w: &[u8], lo: usize, hi: usize, s: &mut [u8], q: usize, from: usize, to: usize)
    ensures { s.new ≡ lift_stored w.now lo hi s.old q from to }
{
    if lifts_in(w.len(), lo, hi, s.len(), q, to) {
        for j in 0..hi - lo {
            let row = row_at(w, lo + j);
            let depth = shifted(row.depth, from, to);
            put_row(s, q + j, Row { depth, ..row });
        }
    }
}
