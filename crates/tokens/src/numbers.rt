// Numbers: how long they are, and what an integer says.
ghost use Rattle.std.specs.Prelude.{◌≡◌, ◌≤◌, length, drop};
ghost use Rattle.paper.specs.Tokens.{count, valued};
ghost use Rattle.paper.specs.Bytes.{at, is};
ghost use Rattle.paper.specs.Scanner.{digits_after, sign, whole, fraction, exponent};
ghost use Rattle.tokens.specs.Numbers.{Digits, amount_of, integer_of, number_len};

// The first n bytes and the digits after them; 0 where no digit stands there. Not an Option: as paper's `digits_after`
// and `whole` it is a length, which number_len adds up, and 0 is the length of what is left out.
fn digits_after(s: &[u8], n: usize) -> usize
    ensures { result ≡ digits_after n s.now }
{
    match s.iter().skip(n).take_while(|b| b.is_ascii_digit()).count() {
        0 => 0,
        digits => n + digits,
    }
}

pub(crate) fn whole_len(s: &[u8]) -> usize
    ensures { result ≡ whole s.now }
{
    digits_after(s, usize::from(s.starts_with(b"-")))
}

fn fraction_len(s: &[u8]) -> usize
    ensures { result ≡ fraction s.now }
{
    if s.starts_with(b".") {
        digits_after(s, 1)
    } else {
        0
    }
}

// An exponent's sign may be left out.
fn exponent_len(s: &[u8]) -> usize
    ensures { result ≡ exponent s.now }
{
    match s {
        [b'e' | b'E', b'+' | b'-', ..] => digits_after(s, 2),
        [b'e' | b'E', ..] => digits_after(s, 1),
        _ => 0,
    }
}

// All of a number whose integer part has n bytes.
pub(crate) fn number_len(s: &[u8], n: usize) -> usize
    requires { n ≤ length s.now }
    ensures { result ≡ number_len n s.now }
{
    let m = n + fraction_len(&s[n..]);
    m + exponent_len(&s[m..])
}

// The number that digits say, where it is at most the limit.
fn magnitude(digits: &[u8], limit: u64) -> Option<u64>
    requires { Digits digits.now }
    ensures { result ≡ amount_of limit (count 0 digits.now) }
{
    let mut value: u64 = 0;
    for b in digits {
        value = value.checked_mul(10)?.checked_add(u64::from(*b - b'0'))?;
    }
    (value <= limit).then_some(value)
}

// The 64 bits of the integer that all of s says, if it is in range: a negative number's are the two's complement.
pub(crate) fn integer(s: &[u8]) -> Option<u64>
    requires { Digits (drop (sign (is "-") (at s.now 0)) s.now) }
    ensures { result ≡ integer_of (valued s.now) }
{
    match s.strip_prefix(b"-") {
        Some(digits) => Some(magnitude(digits, 9_223_372_036_854_775_808)?.wrapping_neg()),
        None => magnitude(s, 9_223_372_036_854_775_807),
    }
}
