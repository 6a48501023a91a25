// Runs of bytes: copied, moved, zeroed, cut out.
ghost use Rattle.std.specs.Prelude.{◌≡◌, ◌+◌, ◌<◌, ◌≤◌, length, take, drop, get_or};
ghost use Rattle.paper.specs.Lent.{zeros};
ghost use Rattle.memory.specs.Memory.{part_at, stored, slid};

use crate::place::fits;

// As many bytes as an operation asks of a work slice.
const WORK: usize = 65536;

// No `copy_from_slice`, and below no `copy_within`: both call memmove, and the archive for C calls nothing but memset
// (bindings/saftmagnet.h).
pub fn copy(dst: &mut [u8], at: usize, src: &[u8])
    ensures { dst.new ≡ stored dst.old at src.now }
{
    if fits(dst.len(), at, src.len()) {
        for (i, b) in src.iter().enumerate() {
            dst[at + i] = *b;
        }
    }
}

// From the first byte on, so that none is overwritten before it is moved.
fn move_down(s: &mut [u8], from: usize, to: usize, n: usize)
    requires { (to ≤ from) × (from + n ≤ length s.old) }
    ensures { s.new ≡ stored s.old to (take n (drop from s.old)) }
{
    for i in 0..n {
        let b = s[from + i];
        s[to + i] = b;
    }
}

// From the last byte back, for the same reason.
fn move_up(s: &mut [u8], from: usize, to: usize, n: usize)
    requires { (from ≤ to) × (to + n ≤ length s.old) }
    ensures { s.new ≡ stored s.old to (take n (drop from s.old)) }
{
    for i in (0..n).rev() {
        let b = s[from + i];
        s[to + i] = b;
    }
}

// Either way is right only where its parts overlap so; where they do not, both are.
pub fn slide(s: &mut [u8], from: usize, to: usize, n: usize)
    ensures { s.new ≡ slid s.old from to n }
{
    if !fits(s.len(), from, n) {
        return;
    }
    if !fits(s.len(), to, n) {
        return;
    }
    if to <= from {
        move_down(s, from, to, n);
        return;
    }
    move_up(s, from, to, n);
}

// The first n bytes; where there are fewer, none.
fn zero(s: &mut [u8], n: usize)
    ensures { s.new ≡ stored s.old 0 (zeros n) }
{
    if n <= s.len() {
        s[..n].fill(0);
    }
}

// A work slice is left so; a shorter one is refused, and stays as it was.
pub fn clear(s: &mut [u8])
    ensures { s.new ≡ stored s.old 0 (zeros 65536) }
{
    zero(s, WORK);
}

// Not an Option: what does not fit is the empty part, as `part_at` has it.
pub fn part(s: &[u8], at: usize, len: usize) -> &[u8]
    ensures { result.now ≡ part_at s.now at len }
{
    if fits(s.len(), at, len) {
        &s[at..at + len]
    } else {
        &s[s.len()..]
    }
}

// The byte at a place; past the end, 0.
pub fn byte(s: &[u8], at: usize) -> usize
    ensures { (result ≡ get_or s.now at 0) × (result < 256) }
{
    s.get(at).map_or(0, |b| usize::from(*b))
}
