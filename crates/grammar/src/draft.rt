// Drafts in the lent slice: 20 bytes each, as step records are, with places of the source for places of text.
ghost use Rattle.std.specs.Prelude.{◌≡◌};
ghost use Rattle.grammar.specs.Puts.{entry_row, path_row, put_row};

use kinds::{Kind, Step};

// The work slice, as far as it is used: the drafts stand at its front.
pub(crate) type Work = [u8; 65536];

// As many steps as a step list may have: so many drafts are stored.
pub const STEPS: usize = 1024;

// The bytes of a draft, as of a step record.
pub const RECORD: usize = 20;

#[derive(Clone, Copy)]
pub struct Entry {
    pub step: Step,
    pub kind: Kind,
    pub path: usize,
    pub span: usize,
    pub value: u64,
    pub place: usize,
}

// Drafts past the last that is stored are only counted, by whoever puts them. A number too wide for its field is cut.
// Not one writer with translate's `Fields::write`, which stores six numbers alike: it would be public and ask nothing,
// so it would test for room that the type gives here and the caller there: no plainer.
pub(crate) fn put(work: &mut Work, n: usize, entry: Entry)
    ensures { work.new ≡ put_row work.old n (entry_row entry) }
{
    if n < STEPS {
        let at = RECORD * n;
        memory::put16(work, at, entry.step.number());
        memory::put16(work, at + 2, entry.kind.number());
        memory::put16(work, at + 4, (entry.path % 65536) as u16);
        memory::put16(work, at + 6, (entry.span % 65536) as u16);
        memory::put64(work, at + 8, entry.value);
        memory::put32(work, at + 16, (entry.place % 4294967296) as u32);
    }
}

// A make or a take: a path, which stands where the step does.
pub(crate) fn put_path(work: &mut Work, n: usize, step: Step, place: usize)
    ensures { work.new ≡ put_row work.old n (path_row step place) }
{
    put(
        work,
        n,
        Entry {
            step,
            kind: Kind::Component,
            path: place,
            span: 0,
            value: 0,
            place,
        },
    );
}

// An enter, a leave or a done.
pub(crate) fn put_bare(work: &mut Work, n: usize, step: Step)
    ensures { work.new ≡ put_row work.old n (path_row step 0) }
{
    put_path(work, n, step, 0);
}
