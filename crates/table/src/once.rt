// That no name stands twice in one component.
ghost use Rattle.std.specs.Prelude.{◌≡◌};
ghost use Rattle.table.specs.Child.{Spanned, AloneIs, DistinctIs, DistinctInIs};

use crate::child::{find_child, name_at, span_within};
use fields::kind_at;
use forms::TABLE_RECORD;
use kinds::Kind;
use layout::Body;

// Whether no later attribute of its component has this one's name.
fn alone(body: Body, i: usize, span: usize, left: usize) -> bool
    requires { Spanned body.records.now i span left }
    ensures { AloneIs body.entry.records.now body.entry.text.now i span left result }
{
    find_child(body, i + TABLE_RECORD * span, left - span, name_at(body, i)).is_none()
}

#[cycle(distinct_distinct_in)]
fn distinct_in(body: Body, i: usize, span: usize) -> bool
    requires { Spanned body.records.now i span span }
    ensures { DistinctInIs body.entry.records.now body.entry.text.now i span result }
{
    kind_at(body.records, i) != Kind::Component.number()
        || distinct(body, i + TABLE_RECORD, span - 1)
}

#[cycle(distinct_distinct_in)]
pub(crate) fn distinct(body: Body, from: usize, n: usize) -> bool
    ensures { DistinctIs body.entry.records.now body.entry.text.now from n result }
{
    let mut i = from;
    let mut left = n;
    // A turn passes an attribute, which spans one record or more: there is no range to go over.
    while 0 < left {
        let Some(span) = span_within(body.records, i, left) else {
            return false;
        };
        if !alone(body, i, span, left) || !distinct_in(body, i, span) {
            return false;
        }
        i += TABLE_RECORD * span;
        left -= span;
    }
    true
}
