// Texts: where one that begins at a place ends, if it is as it should be.
#![tactic(auto)]

ghost use Rattle.std.specs.Prelude.{◌≡◌, ◌+◌, ◌≤◌, ◌<◌, length, drop, get_or, MatchOption};
ghost use Rattle.kinds.specs.Numbers.{kind_number};
ghost use Rattle.paper.specs.Decoder.{name_of, names_of, path_of, decimal_of, string_of};
ghost use Rattle.texts.specs.Text.{EndIs, LongIs, LeafIs, FieldIs};

use kinds::Kind;
use memory::{fits, get16};
use spelling::LONGEST;
use tokens::{is_decimal, is_name};

// The most names that a path has.
const NAMES: usize = 32;

// The byte at a place; past the end, 0. memory's, which stands here too since docs/GUARANTEES names it.
pub fn byte(s: &[u8], at: usize) -> usize
    ensures { (result ≡ get_or s.now at 0) × (result < 256) }
{
    memory::byte(s, at)
}

fn name_end(text: &[u8], p: usize) -> Option<usize>
    ensures { EndIs (name_of (drop p text.now)) text.now p result }
{
    let n = usize::from(*text.get(p)?);
    let start = p + 1;
    let end = start + n;
    let name = text.get(start..end)?;
    is_name(name).then_some(end)
}

fn names_end(text: &[u8], p: usize, n: usize) -> Option<usize>
    requires { p ≤ length text.now }
    ensures { EndIs (names_of n (drop p text.now)) text.now p result }
{
    let mut end = p;
    for _ in 0..n {
        end = name_end(text, end)?;
    }
    Some(end)
}

fn path_end(text: &[u8], p: usize) -> Option<usize>
    ensures { EndIs (path_of (drop p text.now)) text.now p result }
{
    let n = usize::from(*text.get(p)?);
    if n == 0 || NAMES < n {
        return None;
    }
    names_end(text, p + 1, n)
}

fn long_end(text: &[u8], p: usize) -> Option<usize>
    ensures { LongIs text.now p result }
{
    if !fits(text.len(), p, 2) {
        return None;
    }
    let n = usize::from(get16(text, p));
    let start = p + 2;
    fits(text.len(), start, n).then_some(start + n)
}

fn decimal_end(text: &[u8], p: usize) -> Option<usize>
    ensures { EndIs (decimal_of (drop p text.now)) text.now p result }
{
    let end = long_end(text, p)?;
    let start = p + 2;
    is_decimal(&text[start..end]).then_some(end)
}

fn string_end(text: &[u8], p: usize) -> Option<usize>
    ensures { EndIs (string_of (drop p text.now)) text.now p result }
{
    let end = long_end(text, p)?;
    (end - (p + 2) <= LONGEST).then_some(end)
}

// The kind that has this number.
fn kind_of(number: usize) -> Option<Kind>
    ensures { MatchOption result (7 < number) (λ kind. kind_number kind ≡ number) }
{
    let short = u16::try_from(number).ok()?;
    Kind::try_from(short).ok()
}

// Where a basic that is no vector ends. Its value is a number, or the place of its text, which must be the next.
// Its kind is any number, and no u16 or Kind: `leaf` is public, and a narrower type would ask more.
pub fn leaf(text: &[u8], kind: usize, value: u64, p: usize) -> Option<usize>
    ensures { LeafIs text.now kind value p result }
{
    let here = value == p as u64;
    match kind_of(kind)? {
        Kind::Component | Kind::Vector => None,
        Kind::Boolean => (value <= 1).then_some(p),
        Kind::Null => (value == 0).then_some(p),
        Kind::Integer => Some(p),
        Kind::Decimal if here => decimal_end(text, p),
        Kind::Text if here => string_end(text, p),
        Kind::Reference if here => path_end(text, p),
        _ => None,
    }
}

// The name of a record, whose place must be the next.
// One function for this and the next would take the reader as a closure: no shorter than the two.
pub fn name_here(text: &[u8], place: usize, p: usize) -> Option<usize>
    ensures { FieldIs name_of text.now place p result }
{
    if place == p { name_end(text, p) } else { None }
}

// The same of a path.
pub fn path_here(text: &[u8], place: usize, p: usize) -> Option<usize>
    ensures { FieldIs path_of text.now place p result }
{
    if p == place { path_end(text, p) } else { None }
}
