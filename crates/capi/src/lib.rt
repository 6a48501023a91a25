// The four operations as C is told of them: the answer is one number. `capi_c` exports them.
#![tactic(auto)]

ghost use Rattle.std.specs.Prelude.{◌≡◌, [], ◌∷◌, ◌≤◌, IfErr};
ghost use Rattle.paper.specs.Operations.{translates, runs, takes_main, resolves};
ghost use Rattle.refusal.specs.Refused.{answered};
ghost use Rattle.capi.specs.Called.{Called, coded, in_c};

use main_table::main;
use refusal::Refusal;
use resolve::resolve;
use run::run;
use translate::translate;

const HIGH: u64 = 4294967296;

// A refusal's number in the upper half, its place in the lower.
fn code(answer: Result<usize, Refusal>) -> u64
    requires { IfErr answer (λ refusal. refusal.place ≤ 32768) }
    ensures { result ≡ coded (answered answer) }
{
    match answer {
        Ok(length) => length as u64,
        Err(Refusal { reason, place }) => reason.number() as u64 * HIGH + place as u64,
    }
}

pub fn sf_translate(src: &[u8], out: &mut [u8], work: &mut [u8]) -> u64
    ensures { ◌≡◌ {A = Called} (record { result = result; output = out.new; works = work.new ∷ [] })
        (in_c (translates src.now out.old work.old)) }
{
    code(translate(src, out, work))
}

pub fn sf_run<'a>(
    steps: &'a [u8],
    table: &'a [u8],
    out: &mut [u8],
    work1: &mut [u8],
    work2: &mut [u8],
) -> u64
    ensures { ◌≡◌ {A = Called} (record { result = result; output = out.new; works = work1.new ∷ work2.new ∷ [] })
        (in_c (runs steps.now table.now out.old work1.old work2.old)) }
{
    code(run(steps, table, out, work1, work2))
}

pub fn sf_main(table: &[u8], out: &mut [u8]) -> u64
    ensures { ◌≡◌ {A = Called} (record { result = result; output = out.new; works = [] })
        (in_c (takes_main table.now out.old)) }
{
    code(main(table, out))
}

pub fn sf_resolve(
    src: &[u8],
    out: &mut [u8],
    work1: &mut [u8],
    work2: &mut [u8],
    work3: &mut [u8],
) -> u64
    ensures { ◌≡◌ {A = Called}
        (record { result = result; output = out.new; works = work1.new ∷ work2.new ∷ work3.new ∷ [] })
        (in_c (resolves src.now out.old work1.old work2.old work3.old)) }
{
    code(resolve(src, out, work1, work2, work3))
}
