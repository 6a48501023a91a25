// Puts among the rows, and the bounds after each.
ghost use Rattle.std.specs.Prelude.{ℕ, List, ◌≡◌, ◌+◌, ◌-◌, ◌*◌, ◌≤◌, length};
ghost use Rattle.rows.specs.View.{view};
ghost use Rattle.rows.specs.Search.{text_bytes};
ghost use Rattle.run.specs.Known.{names_of};
ghost use Rattle.run.specs.Puts.{ReplacedIs, PutsIn, PutsBounded, RanKept, Assigns, Copies};

use crate::known::{Known, Path};
use crate::place::descend;
use crate::size::{ROW, Size, Work};
use moves::splice;
use refusal::Reason;
use rows::row::label_at;
use rows::search::Rows;
use rows::text::Texts;

// What a table may have.
const DEPTH: usize = 32;

const NODES: usize = 1024;

const TEXT: usize = 16384;

// How many rows and text bytes there are after a put, before they are held to the bounds.
#[derive(Clone, Copy)]
pub(crate) struct Grown {
    pub rows: usize,
    pub text: usize,
}

// The text bytes of new rows; no row has more than its two bytes can tell.
fn text_in(bytes: &[u8], count: usize) -> usize
    requires { (count ≤ 1024) × (count * 16 ≤ length bytes.now) }
    ensures { (result ≤ 65535 * 4096) × ((t u : List ℕ) → result ≡ text_bytes (view t u bytes.now count)) }
{
    Rows { bytes, count }.text_of(0, count)
}

// The rows from i up to e give way to new ones.
fn replace(w: &mut Work, size: Size, i: usize, e: usize, new: Known<'_>) -> Grown
    requires { (i ≤ e) × (e ≤ size.rows) }
    ensures { ReplacedIs size.rows i e new.entry.rows.count size.text w.old new.entry.rows.bytes.now w.new result }
{
    let store = Rows {
        bytes: w,
        count: size.rows,
    };
    let old = store.text_of(i, e);
    let sum = size.text + text_in(new.rows.bytes, new.rows.count);
    splice(w, size.rows, i, e, new.rows);
    Grown {
        rows: i + (new.rows.count + (size.rows - e)),
        text: sum.saturating_sub(old),
    }
}

// A present name keeps its position, a new one goes to the end of the attributes of depth d that begin at row lo.
fn put_in<'a>(
    w: &mut Work,
    size: Size,
    lo: usize,
    d: usize,
    texts: Texts<'a>,
    name: &[u8],
    new: Known<'a>,
) -> Grown
    requires { (lo ≤ size.rows) × (d ≤ 64) }
    ensures { PutsIn texts.entry.list.now texts.entry.table.now size.rows lo d name.now new.entry.rows.count size.text
        w.old new.entry.rows.bytes.now w.new result }
{
    let store = Rows {
        bytes: w,
        count: size.rows,
    };
    match store.child(lo, d, texts, name) {
        Some(i) => {
            let e = store.end_of(i + 1, d + 1);
            replace(w, size, i, e, new)
        }
        None => {
            let e = store.end_of(lo, d);
            replace(w, size, e, e, new)
        }
    }
}

// Depth, nodes and text, in this order, of the store after the put; the value's own row is its least deep.
fn put_bounded<'a>(
    w: &mut Work,
    size: Size,
    lo: usize,
    d: usize,
    texts: Texts<'a>,
    name: &[u8],
    new: Known<'a>,
) -> Result<Size, Reason>
    requires { (lo ≤ size.rows) × (d ≤ 64) }
    ensures { (RanKept d result)
        × (PutsBounded texts.entry.list.now texts.entry.table.now size.rows lo d name.now new.entry.rows.count
        size.text w.old new.entry.rows.bytes.now w.new result) }
{
    if DEPTH < d || DEPTH < new.rows.deepest_of(0, new.rows.count) {
        return Err(Reason::TooDeep);
    }
    let grown = put_in(w, size, lo, d, texts, name, new);
    if NODES < grown.rows {
        return Err(Reason::TooManyNodes);
    }
    if TEXT < grown.text {
        return Err(Reason::TooMuchText);
    }
    Ok(Size {
        rows: grown.rows,
        text: grown.text,
    })
}

// Bind at the path's names and then this one, and then the bounds.
pub(crate) fn assign<'a>(
    w: &mut Work,
    size: Size,
    path: Path<'a>,
    name: &[u8],
    texts: Texts<'a>,
    new: Known<'a>,
) -> Result<Size, Reason>
    requires { path.count ≤ 63 }
    ensures { (RanKept (1 + path.entry.count) result)
        × (Assigns texts.entry.list.now texts.entry.table.now size.rows (names_of texts.entry path.entry) name.now
        new.entry.rows.count size.text w.old new.entry.rows.bytes.now w.new result) }
{
    let store = Known {
        rows: Rows {
            bytes: w,
            count: size.rows,
        },
    };
    let lo = descend(store, 0, 1, path, 0, texts)?;
    put_bounded(w, size, lo, 1 + path.count, texts, name, new)
}

// The attributes are put one by one into the component at the path's names.
pub(crate) fn copy_in<'a>(
    w: &mut Work,
    mut size: Size,
    path: Path<'a>,
    texts: Texts<'a>,
    new: Known<'a>,
) -> Result<Size, Reason>
    requires { path.count ≤ 63 }
    ensures { (RanKept 0 result)
        × (Copies texts.entry.list.now texts.entry.table.now size.rows (names_of texts.entry path.entry)
        new.entry.rows.count size.text w.old new.entry.rows.bytes.now w.new result) }
{
    let rows = new.rows;
    let mut j = 0;
    // The next attribute begins where the rows of this one end: there is no range to go over.
    while j < rows.count {
        let name = texts.name_of(usize::from(label_at(rows.bytes, j)));
        let end = rows.end_of(j + 1, path.count + 2);
        let at = j * ROW;
        let one = Known {
            rows: Rows {
                bytes: &rows.bytes[at..],
                count: end - j,
            },
        };
        size = assign(w, size, path, name, texts, one)?;
        j = end;
    }
    Ok(size)
}
