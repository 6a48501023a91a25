// Numbers in a slice, the lowest byte first.
ghost use Rattle.std.specs.Prelude.{◌≡◌, length};
ghost use Rattle.paper.specs.DecodeAt.{word};
ghost use Rattle.paper.specs.Layout.{little};
ghost use Rattle.memory.specs.Memory.{word_at, stored};

use crate::bytes::{copy, part};

// The N bytes at a place; zeros where they do not lie in the slice.
fn bytes_at<const N: usize>(s: &[u8], at: usize) -> [u8; N]
    ensures { word N result 0 ≡ word_at N s.now at }
{
    part(s, at, N).first_chunk().copied().unwrap_or([0; N])
}

// Three of each, since `from_le_bytes` and `to_le_bytes` belong to a type: a trait over the three would be no plainer.
pub fn get16(s: &[u8], at: usize) -> u16
    ensures { result ≡ word_at 2 s.now at }
{
    u16::from_le_bytes(bytes_at(s, at))
}

pub fn get32(s: &[u8], at: usize) -> u32
    ensures { result ≡ word_at 4 s.now at }
{
    u32::from_le_bytes(bytes_at(s, at))
}

pub fn get64(s: &[u8], at: usize) -> u64
    ensures { result ≡ word_at 8 s.now at }
{
    u64::from_le_bytes(bytes_at(s, at))
}

pub fn put16(s: &mut [u8], at: usize, x: u16)
    ensures { s.new ≡ stored s.old at (little 2 x) }
{
    copy(s, at, &u16::to_le_bytes(x));
}

pub fn put32(s: &mut [u8], at: usize, x: u32)
    ensures { s.new ≡ stored s.old at (little 4 x) }
{
    copy(s, at, &u32::to_le_bytes(x));
}

pub fn put64(s: &mut [u8], at: usize, x: u64)
    ensures { s.new ≡ stored s.old at (little 8 x) }
{
    copy(s, at, &u64::to_le_bytes(x));
}
