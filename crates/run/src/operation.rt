// Operation 2: step list and starting table to the whole table; or, for resolve, to the table of `sfConfig` at once.
ghost use Rattle.std.specs.Prelude.{◌≡◌, ◌≤◌, length};
ghost use Rattle.paper.specs.Operations.{runs};
ghost use Rattle.paper.specs.Lent.{Outcome};
ghost use Rattle.run.specs.Runs.{outcome, AnsweredIs, store_of, runs_main};
ghost use Rattle.run.specs.Wanted.{wanted_of, settled};

use crate::config::main_in;
use crate::evaluate::evaluate;
use crate::size::Work;
use crate::wanted::Wanted;
use forms::text_of;
use memory::clear;
use refusal::{Reason, Refusal};
use rows::search::Rows;
use rows::text::Texts;
use write::write;

const OUTPUT: usize = 32792;

const SHORT: Refusal = Refusal {
    reason: Reason::SliceTooShort,
    place: 0,
};

fn answer<'a>(
    wanted: Wanted,
    list: &'a [u8],
    start: &'a [u8],
    out: &mut [u8],
    w: &mut Work,
    s: &mut Work,
) -> Result<usize, Refusal>
    requires { 32792 ≤ length out.old }
    ensures long { (length w.new ≡ 65536) × (length s.new ≡ 65536) }
    ensures answered { AnsweredIs (wanted_of wanted (store_of list.now start.now)) out.old out.new result }
{
    let size = evaluate(list, start, w, s)?.size;
    let store = Rows {
        bytes: w,
        count: size.rows,
    };
    let texts = Texts {
        list: text_of(list),
        table: text_of(start),
    };
    match wanted {
        Wanted::Whole => Ok(write(store, 0, size.rows, 0, texts, out)),
        Wanted::Main => main_in(store, texts, out),
    }
}

// Only as much of a work slice is lent as is cleared at the end.
fn settle<'a>(
    wanted: Wanted,
    steps: &'a [u8],
    table: &'a [u8],
    out: &mut [u8],
    work1: &mut [u8],
    work2: &mut [u8],
) -> Result<usize, Refusal>
    ensures { ◌≡◌ {A = Outcome} (outcome result out.new work1.new work2.new) (settled (wanted_of wanted (store_of
        steps.now table.now)) out.old work1.old work2.old) }
{
    if out.len() < OUTPUT {
        return Err(SHORT);
    }
    let rows = work1.first_chunk_mut().ok_or(SHORT)?;
    let names = work2.first_chunk_mut().ok_or(SHORT)?;
    let told = answer(wanted, steps, table, out, rows, names);
    clear(work1);
    clear(work2);
    told
}

pub fn run<'a>(
    steps: &'a [u8],
    table: &'a [u8],
    out: &mut [u8],
    work1: &mut [u8],
    work2: &mut [u8],
) -> Result<usize, Refusal>
    ensures { ◌≡◌ {A = Outcome} (outcome result out.new work1.new work2.new) (runs steps.now table.now out.old
        work1.old work2.old) }
{
    settle(Wanted::Whole, steps, table, out, work1, work2)
}

// The table of `sfConfig` is taken straight from the rows: the whole table is not laid out before.
pub fn run_main<'a>(
    steps: &'a [u8],
    table: &'a [u8],
    out: &mut [u8],
    work1: &mut [u8],
    work2: &mut [u8],
) -> Result<usize, Refusal>
    ensures { ◌≡◌ {A = Outcome} (outcome result out.new work1.new work2.new) (runs_main steps.now table.now out.old
        work1.old work2.old) }
{
    settle(Wanted::Main, steps, table, out, work1, work2)
}
