// The readers of a description. They leave one draft for each step, in a lent slice.
#![tactic(auto)]

mod answer;
mod basic;
mod cursor;
mod draft;
mod path;
mod statements;
mod token;
mod value;
mod vectors;

ghost use Rattle.std.specs.Prelude.{◌≡◌, ◌≤◌, length};
ghost use Rattle.grammar.specs.Reads.{WholeIs, outcome, reads};

use crate::cursor::Cursor;
use crate::draft::Work;
use crate::statements::read_statements;
use crate::token::expect;
pub use answer::Drafts;
pub use draft::{RECORD, STEPS};
use refusal::{Reason, Refusal};
use tokens::Kind;

const OPENINGS: usize = 32;

const SOURCE: usize = 32768;

// Statements up to the end of the source.
fn read_whole(src: &[u8], work: &mut Work) -> Result<Drafts, Refusal>
    requires { length src.now ≤ 32768 }
    ensures { WholeIs src.now work.old work.new result }
{
    let start = Cursor {
        at: 0,
        count: 0,
        text: 0,
    };
    let to = read_statements(src, start, OPENINGS, work)?;
    expect(src, to.at, Kind::End)?;
    Ok(Drafts {
        steps: to.count,
        text: to.text,
    })
}

// A refusal leaves nothing of what was read before it.
fn read_drafts(src: &[u8], work: &mut Work) -> Result<Drafts, Refusal>
    ensures { outcome result work.new ≡ reads src.now work.old }
{
    memory::clear(work);
    if SOURCE < src.len() {
        return Err(Refusal {
            reason: Reason::DescriptionTooLong,
            place: 0,
        });
    }
    let drafts = read_whole(src, work);
    if drafts.is_err() {
        memory::clear(work);
    }
    drafts
}

// Only the front of the slice is read into; one that is too short stays as it was.
pub fn read(src: &[u8], work: &mut [u8]) -> Result<Drafts, Refusal>
    ensures { outcome result work.new ≡ reads src.now work.old }
{
    match work.first_chunk_mut() {
        Some(drafts) => read_drafts(src, drafts),
        None => Err(Refusal {
            reason: Reason::SliceTooShort,
            place: 0,
        }),
    }
}
