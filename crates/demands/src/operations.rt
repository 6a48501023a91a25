// Each operation answers exactly what document 01 allows, and leaves every lent slice as it says.
ghost use Rattle.std.specs.Prelude.{◌≡◌, [], ◌∷◌};
ghost use Rattle.paper.specs.Limits.{least_list, least_table};
ghost use Rattle.paper.specs.Lent.{Outcome, Call, Enough};
ghost use Rattle.paper.specs.Allowed.{Translates, Runs, TakesMain, Resolves};
ghost use Rattle.refusal.specs.Refused.{answered};
ghost use Rattle.run.specs.Runs as Run;
ghost use Rattle.main_table.specs.Main as Main;
ghost use Rattle.resolve.specs.Resolves as Resolve;

use crate::met::{resolve_met, run_met};
use refusal::Refusal;

pub fn translates(src: &[u8], out: &mut [u8], work: &mut [u8]) -> Result<usize, Refusal>
    ensures { Call
        (Enough least_list out.old (work.old ∷ []))
        (Translates src.now)
        out.old
        (work.old ∷ [])
        (record { answer = answered result; output = out.new; works = work.new ∷ [] }) }
{
    translate::translate(src, out, work)
}

pub fn runs<'a>(
    steps: &'a [u8],
    table: &'a [u8],
    out: &mut [u8],
    work1: &mut [u8],
    work2: &mut [u8],
) -> Result<usize, Refusal>
    ensures { Call
        (Enough least_table out.old (work1.old ∷ work2.old ∷ []))
        (Runs steps.now table.now)
        out.old
        (work1.old ∷ work2.old ∷ [])
        (Run.outcome result out.new work1.new work2.new) }
{
    run_met(steps, table, out, work1, work2)
}

pub fn takes_main(table: &[u8], out: &mut [u8]) -> Result<usize, Refusal>
    ensures { Call
        (Enough least_table out.old [])
        (TakesMain table.now)
        out.old
        []
        (Main.outcome result out.new) }
{
    main_table::main(table, out)
}

// Demand 2.
pub fn resolves(
    src: &[u8],
    out: &mut [u8],
    work1: &mut [u8],
    work2: &mut [u8],
    work3: &mut [u8],
) -> Result<usize, Refusal>
    ensures { Call
        (Enough least_table out.old (work1.old ∷ work2.old ∷ work3.old ∷ []))
        (Resolves src.now)
        out.old
        (work1.old ∷ work2.old ∷ work3.old ∷ [])
        (Resolve.outcome result out.new work1.new work2.new work3.new) }
{
    resolve_met(src, out, work1, work2, work3)
}
