// Statements, and the prototypes that hold them: where their records end, if they are as they should be.
ghost use Rattle.std.specs.Prelude.{◌≡◌};
ghost use Rattle.paper.specs.DecodeAt.{word};
ghost use Rattle.layout.specs.Walk.{WalkIs};
ghost use Rattle.steplist.specs.Walk.{WalkOn, statements_here, statement_here, value_here};
ghost use Rattle.steplist.specs.Walk.{prototypes_here, prototype_here};

use crate::record::{Record, SOURCE, bare, closed, opens, plain, stops};
use crate::statement::{link, set, take};
use fields::{label_at, place_at, step_at, value_at};
use forms::STEP_RECORD;
use kinds::Step;
use layout::{Body, Place};
use memory::fits;
use texts::path_here;

// So many blocks and vectors may be open around one that is opened.
const AROUND: usize = 31;

// Statements, up to a leave or to the end of the records; so many blocks and vectors are open.
#[cycle(statements)]
pub(crate) fn statements(body: Body, depth: usize, first: Place) -> Option<Place>
    ensures { WalkIs (statements_here body.entry.records.now body.entry.text.now depth first.record first.text)
        body.entry.records.now body.entry.text.now result }
{
    let mut at = first;
    while !stops(body.records, at.record) {
        at = statement(body, depth, at)?;
    }
    Some(at)
}

#[cycle(statements)]
fn statement(body: Body, depth: usize, at: Place) -> Option<Place>
    ensures { WalkOn (statement_here body.entry.records.now body.entry.text.now depth at.record at.text)
        body.entry.records.now body.entry.text.now at.record result }
{
    if !fits(body.records.len(), at.record, STEP_RECORD)
        || SOURCE <= place_at(body.records, at.record)
    {
        return None;
    }
    let text = path_here(body.text, label_at(body.records, at.record), at.text)?;
    let at = Place { text, ..at };
    value(Record { body, at }, depth)
}

#[cycle(statements)]
fn value(here: Record, depth: usize) -> Option<Place>
    ensures { WalkIs
        (value_here here.entry.body.records.now here.entry.body.text.now depth here.entry.at.record here.entry.at.text)
        here.entry.body.records.now here.entry.body.text.now result }
{
    let Ok(step) = Step::try_from(step_at(here.body.records, here.at.record)) else {
        return None;
    };
    match step {
        Step::Set => set(here, depth),
        Step::Link => link(here, depth),
        Step::Make => make(here, depth),
        _ => None,
    }
}

// A make, and its prototypes, of which there is one at least.
#[cycle(statements)]
fn make(here: Record, depth: usize) -> Option<Place>
    requires { word 2 here.body.records.now here.at.record ≡ 1 }
    ensures { WalkIs
        (value_here here.entry.body.records.now here.entry.body.text.now depth here.entry.at.record here.entry.at.text)
        here.entry.body.records.now here.entry.body.text.now result }
{
    let Record { body, at } = here;
    if !plain(body.records, at.record, Step::Make) || value_at(body.records, at.record) != 0 {
        return None;
    }
    let first = Place {
        record: at.record + STEP_RECORD,
        ..at
    };
    if step_at(body.records, first.record) == Step::Done.number() {
        return None;
    }
    prototypes(body, depth, first)
}

// Prototypes, and the done that closes them.
#[cycle(statements)]
fn prototypes(body: Body, depth: usize, first: Place) -> Option<Place>
    ensures { WalkIs (prototypes_here body.entry.records.now body.entry.text.now depth first.record first.text)
        body.entry.records.now body.entry.text.now result }
{
    let mut at = first;
    while opens(body.records, at.record) {
        at = prototype(Record { body, at }, depth)?;
    }
    closed(body.records, at, Step::Done)
}

// One prototype: a reference, or a block with its enter and its leave.
#[cycle(statements)]
fn prototype(here: Record, depth: usize) -> Option<Place>
    ensures { WalkOn
        (prototype_here here.entry.body.records.now here.entry.body.text.now depth here.entry.at.record
        here.entry.at.text)
        here.entry.body.records.now here.entry.body.text.now here.entry.at.record result }
{
    let Record { body, at } = here;
    if step_at(body.records, at.record) == Step::Take.number() {
        return take(here);
    }
    if !bare(body.records, at.record, Step::Enter) || AROUND < depth {
        return None;
    }
    let first = Place {
        record: at.record + STEP_RECORD,
        ..at
    };
    let end = statements(body, depth + 1, first)?;
    closed(body.records, end, Step::Leave)
}
