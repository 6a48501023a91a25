// What a reference finds.
ghost use Rattle.std.specs.Prelude.{◌++◌, ◌+◌, ◌*◌, ◌≤◌, length};
ghost use Rattle.run.specs.Paths.{FoundIn, FindsFrom, FindsIn, ResolvesIn};
ghost use Rattle.run.specs.Known.{rows_of, names_of};

use crate::known::{Known, Path};
use crate::place::descend;
use memory::get16;
use rows::text::Texts;

// The reference's names, followed from the attributes of depth d that begin at row lo.
fn find_from<'a>(
    store: Known<'a>,
    lo: usize,
    d: usize,
    reference: Path<'a>,
    texts: Texts<'a>,
) -> Option<usize>
    requires { (lo ≤ store.rows.count) × (1 ≤ reference.count) × (d ≤ 64) }
    ensures { (FoundIn store.entry.rows.count result)
        × (FindsFrom (rows_of texts.entry store.entry) lo d (names_of texts.entry reference.entry) result) }
{
    let last = reference.count - 1;
    let front = Path {
        places: reference.places,
        count: last,
    };
    let inner = descend(store, lo, d, front, 0, texts).ok()?;
    let name = texts.name_of(usize::from(get16(reference.places, last * 2)));
    store.rows.child(inner, d + last, texts, name)
}

// Scope joined with the whole reference. A call: within resolve, which calls itself for each name of the scope, its
// frame would lie on the stack as often.
#[inline(never)]
fn find<'a>(
    store: Known<'a>,
    scope: Path<'a>,
    reference: Path<'a>,
    texts: Texts<'a>,
) -> Option<usize>
    requires { (1 ≤ reference.count) × (scope.count ≤ 32) }
    ensures { (FoundIn store.entry.rows.count result)
        × (FindsIn (rows_of texts.entry store.entry) (names_of texts.entry scope.entry ++ names_of texts.entry
        reference.entry) result) }
{
    let lo = descend(store, 0, 1, scope, 0, texts).ok()?;
    find_from(store, lo, 1 + scope.count, reference, texts)
}

// The last name of the scope is dropped, and the search is made again.
pub(crate) fn resolve<'a>(
    store: Known<'a>,
    scope: Path<'a>,
    reference: Path<'a>,
    texts: Texts<'a>,
) -> Option<usize>
    requires { (1 ≤ reference.count) × (scope.count ≤ 32) }
    ensures { (FoundIn store.entry.rows.count result)
        × (ResolvesIn (rows_of texts.entry store.entry) scope.entry.count (names_of texts.entry scope.entry) (names_of
        texts.entry reference.entry) result) }
{
    let Some(i) = find(store, scope, reference, texts) else {
        if scope.count == 0 {
            return None;
        }
        let outer = Path {
            places: scope.places,
            count: scope.count - 1,
        };
        return resolve(store, outer, reference, texts);
    };
    Some(i)
}
