// A path of the list's text, as the places of its names.
ghost use Rattle.std.specs.Prelude.{◌≡◌, ◌+◌, ◌≤◌, ◌<◌, length};
ghost use Rattle.memory.specs.Memory.{stored};
ghost use Rattle.run.specs.Listed.{path_count, places};

use memory::{byte, put16};

// As many names as a path may have.
const NAMES: usize = 32;

#[tactic(auto, unfolding(crate::specs::Listed::path_count))]
fn count(t: &[u8], p: usize) -> usize
    ensures { (result ≡ path_count t.now p) × (result ≤ 32) }
{
    byte(t, p).min(NAMES)
}

// The places go to s from byte `at` on, each u16.
pub(crate) fn put_path(t: &[u8], p: usize, s: &mut [u8], at: usize) -> usize
    requires { (p ≤ 32768) × (at + 64 ≤ length s.old) }
    ensures { (result ≡ path_count t.now p) × (s.new ≡ stored s.old at (places t.now (p + 1) result)) }
{
    let n = count(t, p);
    let mut q = p + 1;
    for i in 0..n {
        put16(s, at + i * 2, q as u16);
        q = q + 1 + byte(t, q);
    }
    n
}
