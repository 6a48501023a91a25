// Demand 3: a description is translated, and its list run over a starting table.
ghost use Rattle.std.specs.Prelude.{◌≡◌, [], ◌∷◌};
ghost use Rattle.run.specs.Runs.{outcome};
ghost use Rattle.demands.specs.Slices.{FourLong, Third};

use crate::operations::{runs, translates};
use memory::clear;
use refusal::{Reason, Refusal};

const LIST: usize = 53272;

const TABLE: usize = 32792;

const WORK: usize = 65536;

fn in_turn<'a>(
    src: &[u8],
    table: &'a [u8],
    list: &'a mut [u8],
    out: &mut [u8],
    work1: &mut [u8],
    work2: &mut [u8],
) -> Result<usize, Refusal>
    requires { FourLong list.old out.old work1.old work2.old }
    ensures { Third src.now table.now
        list.old out.old work1.old work2.old list.new
        (outcome result out.new work1.new work2.new) }
{
    match translates(src, list, work1) {
        Ok(n) => runs(&list[..n], table, out, work1, work2),
        Err(refusal) => {
            clear(work2);
            Err(refusal)
        }
    }
}

pub fn evaluates<'a>(
    src: &[u8],
    table: &'a [u8],
    list: &'a mut [u8],
    out: &mut [u8],
    work1: &mut [u8],
    work2: &mut [u8],
) -> Result<usize, Refusal>
    ensures { Third src.now table.now
        list.old out.old work1.old work2.old list.new
        (outcome result out.new work1.new work2.new) }
{
    if list.len() < LIST || out.len() < TABLE || work1.len() < WORK || work2.len() < WORK {
        return Err(Refusal {
            reason: Reason::SliceTooShort,
            place: 0,
        });
    }
    in_turn(src, table, list, out, work1, work2)
}
