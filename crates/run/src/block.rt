// Statements and prototypes of a step list, over the store: steps nest as the grammar nests.
ghost use Rattle.std.specs.Prelude.{◌≡◌, ◌+◌, ◌-◌, ◌≤◌, ◌<◌, length};
ghost use Rattle.run.specs.Listed.{step_field};
ghost use Rattle.run.specs.Blocks.{begins_statement, begins_prototype, Placed, NextIn, KeptTo, ComponentIs};
ghost use Rattle.run.specs.Blocks.{StatementIs, StatementsAre, PrototypeIs, PrototypesAre};

use crate::known::{Names, Program, Records};
use crate::list::record_at;
use crate::size::{PATH, RECORDS, Size, Work};
use crate::step::{link, make, put_names, set, take};
use kinds::Step;
use refusal::{Reason, Refusal};

// Where the run goes on, with the size of the store.
#[derive(Clone, Copy)]
pub(crate) struct Next {
    pub index: usize,
    pub size: Size,
}

// What became of the step at record i, with its place.
fn placed(
    list: Records<'_>,
    i: usize,
    ran: Result<Size, Reason>,
    next: usize,
) -> Result<Next, Refusal>
    requires { i ≤ 1024 }
    ensures { result ≡ Placed (step_field 4 list.entry.bytes.now i 16) next ran }
{
    match ran {
        Ok(size) => Ok(Next { index: next, size }),
        Err(reason) => Err(Refusal {
            reason,
            place: record_at(list, i).place,
        }),
    }
}

// The record behind one; no list has more than so many.
fn behind(i: usize) -> usize
    ensures { (result ≤ 1024) × (i ≤ 1024 → i ≤ result) × (i < 1024 → result ≡ i + 1) }
{
    i.saturating_add(1).min(RECORDS)
}

// The record behind a set and its items.
fn behind_set(list: Records<'_>, i: usize) -> usize
    requires { i < 1024 }
    ensures { (i < result) × (result ≤ 1024)
        × (1 ≤ step_field 2 list.entry.bytes.now i 6 → i + step_field 2 list.entry.bytes.now i 6 ≤ 1024 → result ≡ i +
        step_field 2 list.entry.bytes.now i 6) }
{
    let span = record_at(list, i).span;
    if 1 <= span && span <= RECORDS - i {
        i + span
    } else {
        i + 1
    }
}

fn begins(list: Records<'_>, i: usize) -> bool
    requires { i ≤ 1024 }
    ensures { result ≡ begins_statement (step_field 2 list.entry.bytes.now i 0) }
{
    matches!(record_at(list, i).step, Step::Make | Step::Set | Step::Link)
}

fn extends(list: Records<'_>, i: usize) -> bool
    requires { i ≤ 1024 }
    ensures { result ≡ begins_prototype (step_field 2 list.entry.bytes.now i 0) }
{
    matches!(record_at(list, i).step, Step::Take | Step::Enter)
}

// A component at the own names: an empty one, and then its prototypes.
#[cycle(component_prototype_prototypes_statement_statements)]
fn component<'a>(
    program: Program<'a>,
    from: Next,
    w: &mut Work,
    s: &mut Work,
    names: Names,
) -> Result<Next, Refusal>
    requires { from.index < 1024 }
    ensures { (NextIn (from.index + 1) result) × (KeptTo names.scope s.old s.new)
        × (ComponentIs program.entry.steps.bytes.now from.index program.entry.texts.list.now
        program.entry.texts.table.now from.size.rows from.size.text names.scope names.own s.old w.old w.new result) }
{
    let i = from.index;
    let ran = make(w, from.size, s, names.own, program.texts);
    let next = placed(program.steps, i, ran, i + 1)?;
    prototypes(program, next, w, s, names)
}

// The statement at a record, in the scope of the first k names.
#[cycle(component_prototype_prototypes_statement_statements)]
fn statement<'a>(
    program: Program<'a>,
    from: Next,
    w: &mut Work,
    s: &mut Work,
    k: usize,
) -> Result<Next, Refusal>
    requires { (from.index < 1024) × (k ≤ 32) }
    ensures { (NextIn (from.index + 1) result) × (KeptTo k s.old s.new)
        × (StatementIs program.entry.steps.bytes.now from.index program.entry.texts.list.now
        program.entry.texts.table.now from.size.rows from.size.text k s.old w.old w.new result) }
{
    let i = from.index;
    let record = record_at(program.steps, i);
    let Some(count) = put_names(program.texts.list, record.path, s, PATH + k * 2) else {
        return Err(Refusal {
            reason: Reason::TargetIsRoot,
            place: record.place,
        });
    };
    let names = Names {
        scope: k,
        own: k + count,
    };
    match record.step {
        Step::Set => {
            let ran = set(program, i, w, from.size, s, names.own);
            placed(program.steps, i, ran, behind_set(program.steps, i))
        }
        Step::Link => {
            let ran = link(program, i, w, from.size, s, names);
            placed(program.steps, i, ran, i + 1)
        }
        _ => component(program, from, w, s, names),
    }
}

// Statements from a record on, up to what is none.
#[cycle(component_prototype_prototypes_statement_statements)]
pub(crate) fn statements<'a>(
    program: Program<'a>,
    from: Next,
    w: &mut Work,
    s: &mut Work,
    k: usize,
) -> Result<Next, Refusal>
    requires { (from.index ≤ 1024) × (k ≤ 32) }
    ensures { (NextIn from.index result) × (KeptTo k s.old s.new)
        × (StatementsAre program.entry.steps.bytes.now from.index program.entry.texts.list.now
        program.entry.texts.table.now from.size.rows from.size.text k s.old w.old w.new result) }
{
    let mut next = from;
    while begins(program.steps, next.index) {
        next = statement(program, next, w, s, k)?;
    }
    Ok(next)
}

// The prototype at a record, of the component at the own names.
#[cycle(component_prototype_prototypes_statement_statements)]
fn prototype<'a>(
    program: Program<'a>,
    from: Next,
    w: &mut Work,
    s: &mut Work,
    names: Names,
) -> Result<Next, Refusal>
    requires { (from.index < 1024) × (names.own ≤ 32) }
    ensures { (NextIn (from.index + 1) result) × (KeptTo names.own s.old s.new)
        × (PrototypeIs program.entry.steps.bytes.now from.index program.entry.texts.list.now
        program.entry.texts.table.now from.size.rows from.size.text names.scope names.own s.old w.old w.new result) }
{
    let i = from.index;
    match record_at(program.steps, i).step {
        Step::Take => {
            let ran = take(program, i, w, from.size, s, names);
            placed(program.steps, i, ran, i + 1)
        }
        _ => {
            let first = Next {
                index: i + 1,
                size: from.size,
            };
            let leave = statements(program, first, w, s, names.own)?;
            Ok(Next {
                index: behind(leave.index),
                size: leave.size,
            })
        }
    }
}

// The prototypes from a record on, and the done behind them.
#[cycle(component_prototype_prototypes_statement_statements)]
fn prototypes<'a>(
    program: Program<'a>,
    from: Next,
    w: &mut Work,
    s: &mut Work,
    names: Names,
) -> Result<Next, Refusal>
    requires { (from.index ≤ 1024) × (names.own ≤ 32) }
    ensures { (NextIn from.index result) × (KeptTo names.own s.old s.new)
        × (PrototypesAre program.entry.steps.bytes.now from.index program.entry.texts.list.now
        program.entry.texts.table.now from.size.rows from.size.text names.scope names.own s.old w.old w.new result) }
{
    let mut next = from;
    while extends(program.steps, next.index) {
        next = prototype(program, next, w, s, names)?;
    }
    Ok(Next {
        index: behind(next.index),
        size: next.size,
    })
}
