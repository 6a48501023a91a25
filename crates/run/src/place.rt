// Where paths lead in the store.
ghost use Rattle.std.specs.Prelude.{◌≡◌, ◌+◌, ◌*◌, ◌≤◌, length, drop};
ghost use Rattle.run.specs.Paths.{PlaceIn, DescendsFrom};
ghost use Rattle.run.specs.Known.{rows_of, names_of};

use crate::known::{Known, Path};
use kinds::Kind;
use memory::get16;
use refusal::Reason;
use rows::row::kind_at;
use rows::text::Texts;

// From the attributes of depth d that begin at row lo, down the path's names from the jth on, to the row where the
// attributes of the component begin to which they lead.
pub(crate) fn descend<'a>(
    store: Known<'a>,
    lo: usize,
    d: usize,
    path: Path<'a>,
    j: usize,
    texts: Texts<'a>,
) -> Result<usize, Reason>
    requires { (lo ≤ store.rows.count) × (j ≤ path.count) × (d ≤ 64 + j) }
    ensures { (PlaceIn store.entry.rows.count result)
        × (DescendsFrom (rows_of texts.entry store.entry) lo d (drop j (names_of texts.entry path.entry)) result) }
{
    let mut at = lo;
    let mut depth = d;
    for k in j..path.count {
        let name = texts.name_of(usize::from(get16(path.places, k * 2)));
        let Some(i) = store.rows.child(at, depth, texts, name) else {
            return Err(Reason::TargetAbsent);
        };
        if kind_at(store.rows.bytes, i) != Kind::Component.number() {
            return Err(Reason::TargetIsNoComponent);
        }
        at = i + 1;
        depth += 1;
    }
    Ok(at)
}
