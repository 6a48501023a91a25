// A step list over a starting table: the rows of the store that they give.
ghost use Rattle.run.specs.Runs.{EvaluatedIs};

use crate::block::{Next, statements};
use crate::known::{Program, Records};
use crate::size::{Size, Work};
use forms::{Form, records_of, text_of};
use load::load;
use refusal::{Reason, Refusal};
use rows::text::Texts;
use steplist::is_step_list;
use table::is_table;

// The rows are left at the front of w; their texts stay where they are.
pub(crate) fn evaluate<'a>(
    list: &'a [u8],
    start: &'a [u8],
    w: &mut Work,
    s: &mut Work,
) -> Result<Next, Refusal>
    ensures { EvaluatedIs list.now start.now w.new result }
{
    if !is_step_list(list) {
        return Err(Refusal {
            reason: Reason::NotAStepList,
            place: 0,
        });
    }
    if !is_table(start) {
        return Err(Refusal {
            reason: Reason::NotATable,
            place: 0,
        });
    }
    let texts = Texts {
        list: text_of(list),
        table: text_of(start),
    };
    let steps = Records {
        bytes: records_of(Form::Steps, list),
    };
    let program = Program { steps, texts };
    let rows = load(records_of(Form::Table, start), texts.table, w);
    let size = Size {
        rows,
        text: texts.table.len(),
    };
    statements(program, Next { index: 0, size }, w, s, 0)
}
