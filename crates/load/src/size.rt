// How many text bytes a node has: those of its name, and those of its value.
ghost use Rattle.std.specs.Prelude.{◌≡◌, ◌*◌, ◌≤◌, ◌<◌, drop};
ghost use Rattle.load.specs.Load.{name_size, names_size, path_size, value_size};

use kinds::Kind;
use memory::{byte, get16};
use rows::text::ELEMENT;

// The bytes from a place on; past the end, none.
fn from(text: &[u8], at: usize) -> &[u8]
    ensures { result.now ≡ drop at text.now }
{
    text.get(at..).unwrap_or(&[])
}

pub fn name_size(text: &[u8], place: usize) -> usize
    ensures { (result ≡ name_size text.now place) × (result ≤ 256) }
{
    if place == ELEMENT {
        0
    } else {
        1 + byte(text, place)
    }
}

// A name that the text cuts off is the last.
fn names_size(text: &[u8], n: usize) -> usize
    requires { n < 256 }
    ensures { (result ≡ names_size n text.now) × (result ≤ 256 * n) }
{
    let mut rest = text;
    let mut sum = 0;
    for _ in 0..n {
        let Some((b, names)) = rest.split_first() else {
            return sum;
        };
        let len = usize::from(*b);
        sum += 1 + len;
        rest = from(names, len);
    }
    sum
}

fn path_size(text: &[u8]) -> usize
    ensures { (result ≡ path_size text.now) × (result ≤ 65281) }
{
    match text.split_first() {
        Some((n, names)) => 1 + names_size(names, usize::from(*n)),
        None => 0,
    }
}

// Decimals and strings have a length of two bytes before their text, a reference is a path; the others have no text.
// `kind` is a number and no `Kind`: `value_size` answers for any number that may come.
pub fn value_size(text: &[u8], kind: usize, place: usize) -> usize
    ensures { (result ≡ value_size text.now kind place) × (result ≤ 65537) }
{
    if kind == Kind::Decimal as usize || kind == Kind::Text as usize {
        2 + usize::from(get16(text, place))
    } else if kind == Kind::Reference as usize {
        path_size(from(text, place))
    } else {
        0
    }
}
