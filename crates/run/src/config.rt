// The table of `sfConfig`, from the rows of the whole store.
ghost use Rattle.std.specs.Prelude.{◌≤◌, length};
ghost use Rattle.run.specs.Runs.{MainIs};

use kinds::Kind;
use refusal::{Reason, Refusal};
use rows::row::kind_at;
use rows::search::Rows;
use rows::text::Texts;
use write::write;

const MAIN: &[u8; 8] = b"sfConfig";

const ABSENT: Refusal = Refusal {
    reason: Reason::MainAbsent,
    place: 0,
};

const NO_COMPONENT: Refusal = Refusal {
    reason: Reason::MainIsNoComponent,
    place: 0,
};

// The rows beneath the root's `sfConfig`, one less deep.
pub(crate) fn main_in<'a>(
    store: Rows<'a>,
    texts: Texts<'a>,
    out: &mut [u8],
) -> Result<usize, Refusal>
    requires { (store.count ≤ 1024) × (65536 ≤ length store.bytes.now) × (32792 ≤ length out.old) }
    ensures { MainIs texts.entry.list.now texts.entry.table.now store.entry.bytes.now store.entry.count out.old
        out.new result }
{
    let Some(i) = store.child(0, 1, texts, MAIN) else {
        return Err(ABSENT);
    };
    if kind_at(store.bytes, i) != Kind::Component.number() {
        return Err(NO_COMPONENT);
    }
    let end = store.end_of(i + 1, 2);
    Ok(write(store, i + 1, end, 1, texts, out))
}
