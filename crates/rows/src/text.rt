// The two texts that places point into.
ghost use Rattle.std.specs.Prelude.{◌≡◌, ◌+◌, ◌<◌, drop, get_or};
ghost use Rattle.memory.specs.Memory.{part_at};
ghost use Rattle.rows.specs.View.{PointsInto, byte_of, text_part, name_of, label_of};
ghost use Rattle.rows.specs.Search.{calls};

use memory::{byte, part};

// From this place on a text is the second one's.
pub const SECOND: usize = 32768;

// The place of the name that an element has not.
pub const ELEMENT: usize = 65535;

// The step list's text, and from place 32,768 on the starting table's.
#[derive(Clone, Copy)]
pub struct Texts<'a> {
    pub list: &'a [u8],
    pub table: &'a [u8],
}

impl<'a> Texts<'a> {
    // The text that a place points into, and where in it.
    fn home(self, place: usize) -> (&'a [u8], usize)
        ensures { PointsInto self.entry.list.now self.entry.table.now place result.0.now result.1 }
    {
        if place < SECOND {
            (self.list, place)
        } else {
            (self.table, place - SECOND)
        }
    }

    pub fn byte_of(self, place: usize) -> usize
        ensures { (result ≡ byte_of self.entry.list.now self.entry.table.now place) × (result < 256) }
    {
        let (text, at) = self.home(place);
        byte(text, at)
    }

    pub fn part(self, place: usize, len: usize) -> &'a [u8]
        ensures { result.now ≡ text_part self.entry.list.now self.entry.table.now place len }
    {
        let (text, at) = self.home(place);
        part(text, at, len)
    }

    pub fn name_of(self, place: usize) -> &'a [u8]
        ensures { result.now ≡ name_of self.entry.list.now self.entry.table.now place }
    {
        let (text, at) = self.home(place);
        name_in(text, at)
    }

    // A text each, and within its callers: else a pair of both is made for each name that is looked at.
    #[inline(always)]
    pub fn is_named(self, place: usize, name: &[u8]) -> bool
        ensures { result ≡ calls (label_of self.entry.list.now self.entry.table.now place) name.now }
    {
        if place == ELEMENT {
            false
        } else if place < SECOND {
            name_in(self.list, place) == name
        } else {
            name_in(self.table, place - SECOND) == name
        }
    }
}

// The name behind its length byte; none where the text cuts it off.
fn name_in(text: &[u8], at: usize) -> &[u8]
    ensures { result.now ≡ drop 1 (part_at text.now at (1 + get_or text.now at 0)) }
{
    match part(text, at, 1 + byte(text, at)) {
        [_, name @ ..] => name,
        none => none,
    }
}
