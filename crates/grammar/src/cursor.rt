// Where a reader stands: a place of the source, how many drafts are before it, and how many bytes of text they take.
// The source is no part of it: it never changes, so that each reader's answer would only hand it back.
ghost use Rattle.std.specs.Prelude.{◌≡◌, ◌≤◌, ◌<◌, ◌+◌, ◌^◌, length};
ghost use Rattle.grammar.specs.Went.{moved_to, one_more, PassIs};

use crate::token::expect;
use refusal::Refusal;
use tokens::Kind;

#[derive(Clone, Copy)]
pub struct Cursor {
    pub at: usize,
    pub count: usize,
    pub text: usize,
}

impl Cursor {
    // The same drafts, at another place.
    pub(crate) fn moved(self, at: usize) -> Cursor
        ensures { result ≡ moved_to self at }
    {
        Cursor { at, ..self }
    }

    // One more draft, of so many bytes of text.
    pub(crate) fn drafted(self, size: usize) -> Cursor
        requires { (self.count + 1 < 2 ^ 32) × (self.text + size < 2 ^ 32) }
        ensures { result ≡ one_more self size }
    {
        Cursor {
            at: self.at,
            count: self.count + 1,
            text: self.text + size,
        }
    }

    // The mark has to stand here; nothing else changes.
    pub(crate) fn pass(self, src: &[u8], byte: u8) -> Result<Cursor, Refusal>
        requires { self.at ≤ length src.now }
        ensures { PassIs src.now self byte result }
    {
        let spot = expect(src, self.at, Kind::Mark(byte))?;
        Ok(self.moved(spot.next))
    }
}
