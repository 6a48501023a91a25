// One step over the store.
ghost use Rattle.std.specs.Prelude.{◌≡◌, ◌+◌, ◌-◌, ◌*◌, ◌≤◌, ◌<◌, length, drop};
ghost use Rattle.memory.specs.Memory.{word_at};
ghost use Rattle.rows.specs.View.{view};
ghost use Rattle.run.specs.Paths.{names, FoundIn, ResolvesIn};
ghost use Rattle.run.specs.Puts.{RanKept, Copies};
ghost use Rattle.run.specs.Stepping.{scope_in, ScopeKept, SomeNamesPut, BindsLast, Makes, Sets, Links, Takes};

use crate::find::resolve;
use crate::known::{Known, Names, Path, Program};
use crate::list::record_at;
use crate::path::put_path;
use crate::put::{assign, copy_in};
use crate::size::{PATH, Size, Work};
use crate::taken::{attributes, value};
use crate::value::set_rows;
use kinds::Kind;
use memory::get16;
use refusal::Reason;
use rows::row::{Row, kind_at, put_row};
use rows::search::Rows;
use rows::text::{SECOND, Texts};

// Where the names of a reference stand in the second work slice.
const REFERENCE: usize = 33024;

// The names of the path at p, put as places from byte `at` on; how many there are, if any.
pub(crate) fn put_names(t: &[u8], p: usize, s: &mut Work, at: usize) -> Option<usize>
    requires { at ≤ 40000 }
    ensures { SomeNamesPut t.now p s.old at s.new result }
{
    if SECOND < p {
        return None;
    }
    match put_path(t, p, s, at) {
        0 => None,
        count => Some(count),
    }
}

// The place of the last of the k names that stand in s.
fn last_label(s: &Work, k: usize) -> usize
    requires { (1 ≤ k) × (k ≤ 64) }
    ensures { (result < 32768)
        × (word_at 2 (drop 32768 s.now) ((k - 1) * 2) < 32768 → result ≡ word_at 2 (drop 32768 s.now) ((k - 1) * 2)) }
{
    let p = usize::from(get16(s, PATH + (k - 1) * 2));
    if p < SECOND { p } else { 0 }
}

// The value in the first m rows of s, bound at the k names.
fn bind_last<'a>(
    w: &mut Work,
    size: Size,
    s: &Work,
    k: usize,
    label: usize,
    texts: Texts<'a>,
    m: usize,
) -> Result<Size, Reason>
    requires { (1 ≤ k) × (k ≤ 64) × (m ≤ 1024) }
    ensures { (RanKept k result)
        × (BindsLast texts.entry.list.now texts.entry.table.now size.rows size.text k label m s.now w.old w.new
        result) }
{
    let front = Path {
        places: &s[PATH..],
        count: k - 1,
    };
    let new = Known {
        rows: Rows { bytes: s, count: m },
    };
    assign(w, size, front, texts.name_of(label), texts, new)
}

// An empty component, at the k names.
pub(crate) fn make<'a>(
    w: &mut Work,
    size: Size,
    s: &mut Work,
    k: usize,
    texts: Texts<'a>,
) -> Result<Size, Reason>
    requires { (1 ≤ k) × (k ≤ 64) }
    ensures { (RanKept k result) × (drop 32768 s.new ≡ drop 32768 s.old)
        × (Makes texts.entry.list.now texts.entry.table.now size.rows size.text k s.old w.old w.new result) }
{
    let label = last_label(s, k);
    let row = Row {
        kind: Kind::Component.number(),
        depth: k as u16,
        label: label as u16,
        size: (1 + texts.byte_of(label)) as u16,
        value: 0,
    };
    put_row(s, 0, row);
    bind_last(w, size, s, k, label, texts, 1)
}

// A basic value, at the k names.
pub(crate) fn set<'a>(
    program: Program<'a>,
    i: usize,
    w: &mut Work,
    size: Size,
    s: &mut Work,
    k: usize,
) -> Result<Size, Reason>
    requires { (i < 1024) × (1 ≤ k) × (k ≤ 64) }
    ensures { (RanKept k result) × (drop 32768 s.new ≡ drop 32768 s.old)
        × (Sets program.entry.steps.bytes.now i program.entry.texts.list.now program.entry.texts.table.now size.rows
        size.text k s.old w.old w.new result) }
{
    let label = last_label(s, k);
    let rows = set_rows(program.steps, i, program.texts.list, s, label, k);
    bind_last(w, size, s, k, label, program.texts, rows)
}

fn resolve_at<'a>(
    w: &Work,
    size: Size,
    s: &Work,
    j: usize,
    m: usize,
    texts: Texts<'a>,
) -> Option<usize>
    requires { (1 ≤ m) × (m ≤ 32) × (j ≤ 32) }
    ensures { (FoundIn size.rows result)
        × (ResolvesIn (view texts.entry.list.now texts.entry.table.now w.now size.rows) j (scope_in
        texts.entry.list.now texts.entry.table.now s.now j) (names texts.entry.list.now texts.entry.table.now (drop
        33024 s.now) m) result) }
{
    let store = Known {
        rows: Rows {
            bytes: w,
            count: size.rows,
        },
    };
    let scope = Path {
        places: &s[PATH..],
        count: j,
    };
    let reference = Path {
        places: &s[REFERENCE..],
        count: m,
    };
    resolve(store, scope, reference, texts)
}

// The value that the reference finds, as it is now, bound at the own names.
pub(crate) fn link<'a>(
    program: Program<'a>,
    i: usize,
    w: &mut Work,
    size: Size,
    s: &mut Work,
    names: Names,
) -> Result<Size, Reason>
    requires { i < 1024 }
    ensures { (RanKept names.own result) × (ScopeKept s.old s.new)
        × (Links program.entry.steps.bytes.now i program.entry.texts.list.now program.entry.texts.table.now size.rows
        size.text names.scope names.own s.old w.old w.new result) }
{
    let label = last_label(s, names.own);
    let reference = (record_at(program.steps, i).value % 65536) as usize;
    let Some(count) = put_names(program.texts.list, reference, s, REFERENCE) else {
        return Err(Reason::LinkFindsNothing);
    };
    let Some(at) = resolve_at(w, size, s, names.scope, count, program.texts) else {
        return Err(Reason::LinkFindsNothing);
    };
    let rows = value(w, size, at, s, label, names.own, program.texts);
    bind_last(w, size, s, names.own, label, program.texts, rows)
}

fn copy_at<'a>(
    w: &mut Work,
    size: Size,
    s: &Work,
    k: usize,
    texts: Texts<'a>,
    m: usize,
) -> Result<Size, Reason>
    requires { (k ≤ 32) × (m ≤ 1024) }
    ensures { (RanKept 0 result)
        × (Copies texts.entry.list.now texts.entry.table.now size.rows (scope_in texts.entry.list.now
        texts.entry.table.now s.now k) m size.text w.old s.now w.new result) }
{
    let path = Path {
        places: &s[PATH..],
        count: k,
    };
    let new = Known {
        rows: Rows { bytes: s, count: m },
    };
    copy_in(w, size, path, texts, new)
}

// The attributes of the component that the reference finds, put into the one at the own names.
pub(crate) fn take<'a>(
    program: Program<'a>,
    i: usize,
    w: &mut Work,
    size: Size,
    s: &mut Work,
    names: Names,
) -> Result<Size, Reason>
    requires { (i < 1024) × (names.own ≤ 32) }
    ensures { (RanKept 0 result) × (ScopeKept s.old s.new)
        × (Takes program.entry.steps.bytes.now i program.entry.texts.list.now program.entry.texts.table.now size.rows
        size.text names.scope names.own s.old w.old w.new result) }
{
    let reference = record_at(program.steps, i).path;
    let Some(count) = put_names(program.texts.list, reference, s, REFERENCE) else {
        return Err(Reason::PrototypeFindsNothing);
    };
    let Some(source) = resolve_at(w, size, s, names.scope, count, program.texts) else {
        return Err(Reason::PrototypeFindsNothing);
    };
    if kind_at(w, source) != Kind::Component.number() {
        return Err(Reason::PrototypeIsNoComponent);
    }
    let rows = attributes(w, size, source, s, names.own + 1);
    copy_at(w, size, s, names.own, program.texts, rows)
}
