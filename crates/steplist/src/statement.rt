// The parts of statements that hold no statements: a set's basic, a link's path, a prototype that is a reference.
ghost use Rattle.std.specs.Prelude.{◌≡◌};
ghost use Rattle.paper.specs.DecodeAt.{word};
ghost use Rattle.layout.specs.Walk.{WalkIs};
ghost use Rattle.steplist.specs.Walk.{WalkOn, value_here, take_here};

use crate::record::{Record, plain};
use fields::{label_at, span_at, value_at};
use forms::{Form, STEP_RECORD};
use kinds::Step;
use layout::{Place, basic};
use texts::path_here;

pub(crate) fn set(here: Record, depth: usize) -> Option<Place>
    requires { word 2 here.body.records.now here.at.record ≡ 6 }
    ensures { WalkIs
        (value_here here.entry.body.records.now here.entry.body.text.now depth here.entry.at.record here.entry.at.text)
        here.entry.body.records.now here.entry.body.text.now result }
{
    let Record { body, at } = here;
    let span = span_at(body.records, at.record);
    if span == 0 {
        return None;
    }
    basic(Form::Steps, body, depth, span, at)
}

pub(crate) fn link(here: Record, depth: usize) -> Option<Place>
    requires { word 2 here.body.records.now here.at.record ≡ 8 }
    ensures { WalkIs
        (value_here here.entry.body.records.now here.entry.body.text.now depth here.entry.at.record here.entry.at.text)
        here.entry.body.records.now here.entry.body.text.now result }
{
    let Record { body, at } = here;
    if !plain(body.records, at.record, Step::Link) {
        return None;
    }
    let place = value_at(body.records, at.record) as usize;
    let text = path_here(body.text, place, at.text)?;
    Some(Place {
        record: at.record + STEP_RECORD,
        text,
    })
}

pub(crate) fn take(here: Record) -> Option<Place>
    ensures { WalkOn
        (take_here here.entry.body.records.now here.entry.body.text.now here.entry.at.record here.entry.at.text)
        here.entry.body.records.now here.entry.body.text.now here.entry.at.record result }
{
    let Record { body, at } = here;
    if !plain(body.records, at.record, Step::Take) || value_at(body.records, at.record) != 0 {
        return None;
    }
    let place = label_at(body.records, at.record);
    let text = path_here(body.text, place, at.text)?;
    Some(Place {
        record: at.record + STEP_RECORD,
        text,
    })
}
