// One step: its record, and the texts of its path and its value.
ghost use Rattle.std.specs.Prelude.{◌≡◌, ◌||◌, ◌*◌, ◌≤◌, length};
ghost use Rattle.paper.specs.Layout.{text_of};
ghost use Rattle.grammar.specs.Ties.{has_path, is_path};
ghost use Rattle.translate.specs.Settled.{label_at, value_at, fields_at, figure_of, is_long};
ghost use Rattle.translate.specs.Puts.{Put, LabelFits, ValueFits, RowFits, Laid};

use crate::path::put_path;
use crate::record::{Fields, HEADER};
use crate::token::{put_decimal, put_string};
use grammar::RECORD;
use kinds::{Kind, Step};

// The steps that have a path.
#[tactic(auto, unfolding(grammar::specs::Ties::has_path))]
fn has_path(step: u16) -> bool
    ensures { result ≡ has_path step }
{
    matches!(
        Step::try_from(step),
        Ok(Step::Make | Step::Take | Step::Set | Step::Link)
    )
}

// A link's value is a path, and so is a data reference.
fn is_path(step: u16, kind: u16) -> bool
    ensures { result ≡ is_path step kind }
{
    step == Step::Link.number() || kind == Kind::Reference.number()
}

// A decimal is a text, and so is a string.
fn is_long(kind: u16) -> bool
    ensures { result ≡ is_long kind }
{
    kind == Kind::Decimal.number() || kind == Kind::Text.number()
}

// The values that have a text.
fn has_text(step: u16, kind: u16) -> bool
    ensures { result ≡ (is_path step kind || is_long kind) }
{
    is_path(step, kind) || is_long(kind)
}

fn put_label(src: &[u8], draft: Fields, out: &mut [u8], to: usize) -> usize
    requires { LabelFits src.now draft.step draft.path out.old to }
    ensures { Put out.old out.new to (text_of (label_at src.now draft.step draft.path)) result }
{
    if has_path(draft.step) {
        put_path(src, usize::from(draft.path), out, to)
    } else {
        to
    }
}

fn put_value(src: &[u8], draft: Fields, out: &mut [u8], to: usize) -> usize
    requires { ValueFits src.now draft.step draft.kind draft.value out.old to }
    ensures { Put out.old out.new to (text_of (value_at src.now draft.step draft.kind draft.value)) result }
{
    let at = draft.value as usize;
    if is_path(draft.step, draft.kind) {
        put_path(src, at, out, to)
    } else if draft.kind == Kind::Decimal.number() {
        put_decimal(src, at, out, to)
    } else if draft.kind == Kind::Text.number() {
        put_string(src, at, out, to)
    } else {
        to
    }
}

// What stands in the record for a path whose text begins at t.
fn label_figure(draft: Fields, t: usize) -> u16
    requires { t ≤ 32768 }
    ensures { result ≡ figure_of (has_path draft.step) 0 t }
{
    if has_path(draft.step) { t as u16 } else { 0 }
}

// And for a value whose text begins at t, if it has one.
fn value_figure(draft: Fields, t: usize) -> u64
    ensures { result ≡ figure_of (is_path draft.step draft.kind || is_long draft.kind) draft.value t }
{
    if has_text(draft.step, draft.kind) {
        t as u64
    } else {
        draft.value
    }
}

// Record i, and its texts where the text of those before it ends, at t of the text, which begins at base.
pub(crate) fn lay_row(
    src: &[u8],
    out: &mut [u8],
    work: &[u8],
    i: usize,
    base: usize,
    t: usize,
) -> usize
    requires { RowFits src.now (fields_at work.now (20 * i)) base out.old i t }
    ensures { Laid src.now (fields_at work.now (20 * i)) base out.old out.new i t result }
{
    let draft = Fields::read(work, RECORD * i);
    let mid = put_label(src, draft, out, base + t);
    let end = put_value(src, draft, out, mid);
    let record = Fields {
        path: label_figure(draft, t),
        value: value_figure(draft, mid - base),
        ..draft
    };
    record.write(out, HEADER + RECORD * i);
    end - base
}
