// `resolve` and `run` by their contracts, word for word, so that an edit can weaken one and be seen to fail.
ghost use Rattle.std.specs.Prelude.{◌≡◌};
ghost use Rattle.paper.specs.Lent.{Outcome};
ghost use Rattle.paper.specs.Operations as Paper;
ghost use Rattle.run.specs.Runs as Run;
ghost use Rattle.resolve.specs.Resolves as Resolve;

use refusal::Refusal;

pub(crate) fn resolve_met(
    src: &[u8],
    out: &mut [u8],
    work1: &mut [u8],
    work2: &mut [u8],
    work3: &mut [u8],
) -> Result<usize, Refusal>
    ensures { ◌≡◌ {A = Outcome} (Resolve.outcome result
        out.new work1.new work2.new work3.new)
        (Paper.resolves src.now
        out.old work1.old work2.old work3.old) }
{
    resolve::resolve(src, out, work1, work2, work3)
}

pub(crate) fn run_met<'a>(
    steps: &'a [u8],
    table: &'a [u8],
    out: &mut [u8],
    work1: &mut [u8],
    work2: &mut [u8],
) -> Result<usize, Refusal>
    ensures { ◌≡◌ {A = Outcome} (Run.outcome result
        out.new work1.new work2.new)
        (Paper.runs steps.now table.now
        out.old work1.old work2.old) }
{
    run::run(steps, table, out, work1, work2)
}
