// How tokens are spelt: a token's own part of the source, and the bytes that a string means.
#![tactic(auto)]

mod text;

ghost use Rattle.std.specs.Prelude.{◌≡◌};
ghost use Rattle.paper.specs.Bytes.{at};
ghost use Rattle.paper.specs.Scanner.{scan};
ghost use Rattle.spelling.specs.Spelt.{part_of, Decoded, decoded};

use crate::text::write_text;
use memory::fits;
pub use text::{Quoted, measure};

// The most bytes that a string or a decimal has.
pub const LONGEST: usize = 4095;

// The byte at a place, and past the end 256, which is no byte. Not an Option: byte_at answers what paper's `at` does.
// docs/GUARANTEES names it, so it stays where `get` serves as well.
pub fn byte_at(s: &[u8], i: usize) -> usize
    ensures { result ≡ at s.now i }
{
    match s.get(i) {
        Some(b) => usize::from(*b),
        None => 256,
    }
}

// A token's bytes: the very part of the source that it was read from, and nothing where there is no such part.
pub fn token_part<'a>(rest: &'a [u8], at: usize, end: usize) -> &'a [u8]
    ensures { result.now ≡ part_of at end rest.now }
{
    rest.get(at..end).unwrap_or(&[])
}

// Writes what the string token at the front means from a place of out on, and says how many bytes;
// where no string token stands there, or it does not fit, out stays as it is, and 0 bytes are written.
// Not an Option: decode counts what it wrote, as its contract's `decoded` does.
pub fn decode(rest: &[u8], out: &mut [u8], at: usize) -> usize
    ensures { ◌≡◌ {A = Decoded} (record { count = result; out = out.new }) (decoded (scan rest.now) at out.old) }
{
    let [b'"', ..] = rest else {
        return 0;
    };
    let Some(Quoted { count, .. }) = measure(rest, 1) else {
        return 0;
    };
    if count > LONGEST || !fits(out.len(), at, count) {
        return 0;
    }
    write_text(rest, out, at);
    count
}
