// The header, and the records and the text that it tells of.
ghost use Rattle.std.specs.Prelude.{◌≡◌, ◌<◌};
ghost use Rattle.memory.specs.Memory.{word_at, stored};
ghost use Rattle.forms.specs.Header.{SizeIs, records_of, text_of, header_of};

use crate::form::Form;
use memory::{copy, get32, part, put32};

// The bytes of a header.
pub const HEADER: usize = 24;

// The bytes of the largest table: a header, 1024 records, 16384 bytes of text.
pub const TABLE_ROOM: usize = 32792;

// The most records that a table or a step list has.
const RECORDS: usize = 1024;

fn long(b: &[u8], at: usize) -> usize
    ensures { (result ≡ word_at 4 b.now at) × (result < 4294967296) }
{
    get32(b, at) as usize
}

// How many records the header tells of, if it is as it should be.
pub fn count(form: Form, b: &[u8]) -> Option<usize>
    ensures { SizeIs form b.now result }
{
    if b.len() < HEADER || long(b, 0) != form.number() || long(b, 12) != HEADER {
        return None;
    }
    let n = long(b, 8);
    let text = long(b, 16);
    if RECORDS < n || form.most_text() < text {
        return None;
    }
    let place = HEADER + form.size() * n;
    let total = place + text;
    if long(b, 20) != place || long(b, 4) != total || b.len() != total {
        return None;
    }
    Some(n)
}

// The records that the header tells of; none where they lie outside.
pub fn records_of(form: Form, b: &[u8]) -> &[u8]
    ensures { result.now ≡ records_of form b.now }
{
    part(b, HEADER, form.size() * long(b, 8))
}

// The same of the text.
pub fn text_of(b: &[u8]) -> &[u8]
    ensures { result.now ≡ text_of b.now }
{
    part(b, long(b, 20), long(b, 16))
}

// The header of so many records with so much text, at the front of out where there is room for it.
// A length that 32 bits cannot hold is cut off: no table or step list has it.
pub fn put_header(form: Form, out: &mut [u8], count: u16, text: u32)
    ensures { out.new ≡ stored out.old 0 (header_of form count text) }
{
    let place = (HEADER + form.size() * usize::from(count)) as u32;
    let mut header = [0u8; HEADER];
    put32(&mut header, 0, form.number() as u32);
    put32(&mut header, 4, place.wrapping_add(text));
    put32(&mut header, 8, u32::from(count));
    put32(&mut header, 12, HEADER as u32);
    put32(&mut header, 16, text);
    put32(&mut header, 20, place);
    copy(out, 0, &header);
}
