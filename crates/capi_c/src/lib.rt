// The four operations as C functions: each slice is a pointer and a length, the answer one number.
#![tactic(auto)]

ghost use Rattle.std.specs.Prelude.{◌≡◌, [], ◌∷◌};
ghost use Rattle.paper.specs.Operations.{translates, runs, takes_main, resolves};
ghost use Rattle.capi.specs.Called.{Called, in_c};

#[unsafe(no_mangle)]
pub extern "C" fn sf_translate(src: &[u8], out: &mut [u8], work: &mut [u8]) -> u64
    ensures { ◌≡◌ {A = Called} (record { result = result; output = out.new; works = work.new ∷ [] }) (in_c (translates
        src.now out.old work.old)) }
{
    capi::sf_translate(src, out, work)
}

#[unsafe(no_mangle)]
pub extern "C" fn sf_run<'a>(
    steps: &'a [u8],
    table: &'a [u8],
    out: &mut [u8],
    work1: &mut [u8],
    work2: &mut [u8],
) -> u64
    ensures { ◌≡◌ {A = Called} (record { result = result; output = out.new; works = work1.new ∷ work2.new ∷ [] })
        (in_c (runs steps.now table.now out.old work1.old work2.old)) }
{
    capi::sf_run(steps, table, out, work1, work2)
}

#[unsafe(no_mangle)]
pub extern "C" fn sf_main(table: &[u8], out: &mut [u8]) -> u64
    ensures { ◌≡◌ {A = Called} (record { result = result; output = out.new; works = [] }) (in_c (takes_main table.now
        out.old)) }
{
    capi::sf_main(table, out)
}

#[unsafe(no_mangle)]
pub extern "C" fn sf_resolve(
    src: &[u8],
    out: &mut [u8],
    work1: &mut [u8],
    work2: &mut [u8],
    work3: &mut [u8],
) -> u64
    ensures { ◌≡◌ {A = Called} (record {
      result = result;
      output = out.new;
      works = work1.new ∷ work2.new ∷ work3.new
          ∷ [];
    }) (in_c (resolves src.now out.old work1.old work2.old work3.old)) }
{
    capi::sf_resolve(src, out, work1, work2, work3)
}
