// Operation 1: from a description to its step list.
#![tactic(auto)]

mod list;
mod path;
mod record;
mod row;
mod token;

ghost use Rattle.std.specs.Prelude.{◌≡◌};
ghost use Rattle.paper.specs.Operations.{translates};
ghost use Rattle.translate.specs.Outcomes.{outcome};

use crate::list::write_list;
use crate::record::HEADER;
use grammar::{RECORD, STEPS};
use refusal::{Reason, Refusal};

const OUTPUT: usize = 53272;

const TEXT: usize = 32768;

// Too many steps or too much text is refused before anything is written.
pub fn translate(src: &[u8], out: &mut [u8], work: &mut [u8]) -> Result<usize, Refusal>
    ensures { outcome result out.new work.new ≡ translates src.now out.old work.old }
{
    if out.len() < OUTPUT {
        return Err(Refusal {
            reason: Reason::SliceTooShort,
            place: 0,
        });
    }
    let drafts = grammar::read(src, work)?;
    if STEPS < drafts.steps || TEXT < drafts.text {
        memory::clear(work);
        return Err(Refusal {
            reason: Reason::ListTooLong,
            place: 0,
        });
    }
    write_list(src, out, work, drafts);
    memory::clear(work);
    Ok(HEADER + RECORD * drafts.steps + drafts.text)
}
