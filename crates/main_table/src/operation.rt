// Operation 3: whole table to the table of `sfConfig`.
ghost use Rattle.std.specs.Prelude.{◌≡◌, ◌≤◌, length, Err};
ghost use Rattle.paper.specs.Operations.{takes_main};
ghost use Rattle.paper.specs.Lent.{Outcome};
ghost use Rattle.table.specs.Whole.{store_in};
ghost use Rattle.main_table.specs.Main.{outcome, main_of, main_outcome, Tabled};

use crate::lower::lower_table;
use fields::kind_at;
use forms::{Form, TABLE_ROOM, count, records_of, text_of};
use kinds::Kind;
use layout::Body;
use refusal::{Reason, Refusal};
use table::{find_child, is_table};

// Each refusal of this operation has place 0.
fn refused(reason: Reason) -> Result<usize, Refusal>
    ensures { result ≡ Err (record { reason = reason; place = 0 }) }
{
    Err(Refusal { reason, place: 0 })
}

fn main_in(records: &[u8], text: &[u8], n: usize, out: &mut [u8]) -> Result<usize, Refusal>
    requires { (Tabled records.now text.now n) × (32792 ≤ length out.old) }
    ensures { ◌≡◌ {A = Outcome}
        (outcome result out.new) (main_outcome (main_of (store_in records.now text.now n)) out.old) }
{
    let body = Body { records, text };
    let Some(i) = find_child(body, 0, n, b"sfConfig") else {
        return refused(Reason::MainAbsent);
    };
    if kind_at(records, i) != Kind::Component.number() {
        return refused(Reason::MainIsNoComponent);
    }
    Ok(lower_table(body, i, out))
}

pub fn main(table: &[u8], out: &mut [u8]) -> Result<usize, Refusal>
    ensures { ◌≡◌ {A = Outcome} (outcome result out.new) (takes_main table.now out.old) }
{
    if out.len() < TABLE_ROOM {
        return refused(Reason::SliceTooShort);
    }
    match count(Form::Table, table) {
        Some(n) if is_table(table) => main_in(
            records_of(Form::Table, table),
            text_of(table),
            n,
            out,
        ),
        _ => refused(Reason::NotATable),
    }
}
