// Strings: checked and measured, and decoded into a lent slice.
ghost use Rattle.std.specs.Prelude.{◌≡◌, true, ◌+◌, ◌≤◌, length, drop};
ghost use Rattle.paper.specs.Bytes.{at};
ghost use Rattle.paper.specs.Tokens.{escaped};
ghost use Rattle.paper.specs.Scanner.{meant};
ghost use Rattle.spelling.specs.Text.{option_of, meant_of, quotes, quoted_of, is_closed, text_in, put};

// A byte of a string as it is meant, and how many bytes of the source mean it.
#[derive(Clone, Copy, Debug, PartialEq, Eq)]
struct Meant {
    byte: u8,
    len: usize,
}

// A string up to its closing quote: how many bytes it means, and where it ends.
#[derive(Clone, Copy, Debug, PartialEq, Eq)]
pub struct Quoted {
    pub count: usize,
    pub end: usize,
}

// The byte that a backslash and this byte mean.
fn escape(b: u8) -> Option<u8>
    ensures { result ≡ option_of (escaped b) }
{
    match b {
        b'n' => Some(b'\n'),
        b't' => Some(b'\t'),
        b'b' => Some(8),
        b'r' => Some(b'\r'),
        b'f' => Some(12),
        b'\\' | b'"' | b'\'' => Some(b),
        _ => None,
    }
}

// The byte that is meant at the front, where a backslash stands there: three octal digits behind it, or an escape.
fn decode_escape(s: &[u8]) -> Option<Meant>
    requires { at s.now 0 ≡ 92 }
    ensures { result ≡ meant_of (meant s.now) }
{
    match s {
        [_, x @ b'0'..=b'3', y @ b'0'..=b'7', z @ b'0'..=b'7', ..] => Some(Meant {
            byte: (x - b'0') * 64 + (y - b'0') * 8 + (z - b'0'),
            len: 4,
        }),
        [_, b, ..] => Some(Meant {
            byte: escape(*b)?,
            len: 2,
        }),
        _ => None,
    }
}

// The byte that is meant at the front. It stands within the loops over a string, and looks at no more than the first
// byte of most: a call for each byte costs more than the byte.
#[inline(always)]
fn decode_one(s: &[u8]) -> Option<Meant>
    ensures { result ≡ meant_of (meant s.now) }
{
    match s.first() {
        None | Some(b'\n' | b'\r') => None,
        Some(b'\\') => decode_escape(s),
        Some(b) => Some(Meant { byte: *b, len: 1 }),
    }
}

// From a place up to the closing quote.
pub fn measure(s: &[u8], from: usize) -> Option<Quoted>
    ensures { result ≡ quoted_of 0 from (quotes (drop from s.now)) }
{
    let mut at = from;
    let mut count = 0;
    // How long a spelt byte is shows at each turn: there is no range to go over.
    while *s.get(at)? != b'"' {
        at += decode_one(&s[at..])?.len;
        count += 1;
    }
    Some(Quoted { count, end: at + 1 })
}

// Writes what the string after the opening quote means, which is closed and fits. Not one walk with `measure`:
// a closure for what differs, with a contract over `quotes`, would be longer than these loops of five lines.
pub(crate) fn write_text(s: &[u8], out: &mut [u8], at: usize)
    requires closed { is_closed (quotes (drop 1 s.now)) ≡ true }
    requires in_bounds { at + length (text_in (quotes (drop 1 s.now))) ≤ length out.old }
    ensures { out.new ≡ put at (text_in (quotes (drop 1 s.now))) out.old }
{
    let mut i = 1;
    let mut n = at;
    // Likewise.
    while s[i] != b'"' {
        let Some(Meant { byte, len }) = decode_one(&s[i..]) else {
            return; // cannot be, since the string is closed
        };
        out[n] = byte;
        i += len;
        n += 1;
    }
}
