// Operation 4: a description to its main table: translate, run over the empty table, then main.
#![tactic(auto)]

ghost use Rattle.std.specs.Prelude.{◌≡◌, ◌≤◌, length};
ghost use Rattle.paper.specs.Store.{∅};
ghost use Rattle.paper.specs.Layout.{table};
ghost use Rattle.paper.specs.Operations.{resolves};
ghost use Rattle.paper.specs.Lent.{Outcome};
ghost use Rattle.run.specs.Runs as Run;
ghost use Rattle.resolve.specs.Resolves.{outcome, Resolving};

use memory::clear;
use refusal::{Reason, Refusal};
use run::run_main;
use translate::translate;

// The table of no attributes.
const EMPTY: [u8; 24] = *b"\x02\0\0\0\x18\0\0\0\0\0\0\0\x18\0\0\0\0\0\0\0\x18\0\0\0";

const OUTPUT: usize = 32792;

const WORK: usize = 65536;

fn over_the_empty(
    list: &[u8],
    out: &mut [u8],
    work1: &mut [u8],
    work2: &mut [u8],
) -> Result<usize, Refusal>
    ensures { ◌≡◌ {A = Outcome} (Run.outcome result out.new work1.new work2.new)
        (Run.runs_main list.now (table ∅) out.old work1.old work2.old) }
{
    run_main(list, &EMPTY, out, work1, work2)
}

// The step list stands in the third slice: there is no room for a whole table beside it.
fn in_turn(
    src: &[u8],
    out: &mut [u8],
    work1: &mut [u8],
    work2: &mut [u8],
    work3: &mut [u8],
) -> Result<usize, Refusal>
    requires { (32792 ≤ length out.old) × (65536 ≤ length work1.old) × (65536 ≤ length work2.old)
        × (65536 ≤ length work3.old) }
    ensures { Resolving src.now out.old work1.old work2.old work3.old result out.new work1.new work2.new work3.new }
{
    match translate(src, work3, work1) {
        Ok(n) => over_the_empty(&work3[..n], out, work1, work2),
        Err(refusal) => {
            clear(work2);
            Err(refusal)
        }
    }
}

pub fn resolve(
    src: &[u8],
    out: &mut [u8],
    work1: &mut [u8],
    work2: &mut [u8],
    work3: &mut [u8],
) -> Result<usize, Refusal>
    ensures { ◌≡◌ {A = Outcome} (outcome result out.new work1.new work2.new work3.new)
        (resolves src.now out.old work1.old work2.old work3.old) }
{
    if out.len() < OUTPUT || work1.len() < WORK || work2.len() < WORK || work3.len() < WORK {
        return Err(Refusal {
            reason: Reason::SliceTooShort,
            place: 0,
        });
    }
    let answer = in_turn(src, out, work1, work2, work3);
    clear(work3);
    answer
}
