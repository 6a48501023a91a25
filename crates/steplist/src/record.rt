// Step records by themselves: which step stands at a place, and whether its unused fields are 0.
// A place may lie outside, so `stops` to `closed` take records and place as fields' readers do; a method is no plainer.
ghost use Rattle.std.specs.Prelude.{◌≡◌, ◌+◌, ◌≤◌, length};
ghost use Rattle.paper.specs.Maybe.{require};
ghost use Rattle.paper.specs.StepDecoder as Steps;
ghost use Rattle.forms.specs.Form.{fields};
ghost use Rattle.kinds.specs.Numbers.{step_number};
ghost use Rattle.steplist.specs.Record.{StopsIs, opens_at, ClosedIs};

use fields::{depth_at, label_at, place_at, span_at, step_at, value_at};
use forms::STEP_RECORD;
use kinds::Step;
use layout::{Body, Place};
use memory::fits;

// Every place in the source lies below.
pub(crate) const SOURCE: usize = 32768;

// A record that lies within, where a reader stands.
#[derive(Clone, Copy)]
pub(crate) struct Record<'a> {
    pub body: Body<'a>,
    pub at: Place,
    ghost within: { at.record + 20 ≤ length body.records.now },
}

// Whether no statement stands here: the records end, or a leave stands here.
pub(crate) fn stops(records: &[u8], i: usize) -> bool
    ensures { StopsIs records.now i result }
{
    records.len() <= i
        || (fits(records.len(), i, STEP_RECORD) && step_at(records, i) == Step::Leave.number())
}

// Whether a prototype stands here: a take or an enter.
pub(crate) fn opens(records: &[u8], i: usize) -> bool
    ensures { result ≡ opens_at records.now i }
{
    let step = step_at(records, i);
    let opening = step == Step::Take.number() || step == Step::Enter.number();
    fits(records.len(), i, STEP_RECORD) && opening
}

// A record of this step with a path, and with nothing but its place and perhaps a value.
pub(crate) fn plain(records: &[u8], i: usize, step: Step) -> bool
    ensures { Steps.plain (step_number step) (fields 4 records.now i) ≡ require result }
{
    let unused = depth_at(records, i) == 0 && span_at(records, i) == 0;
    step_at(records, i) == step.number() && unused && place_at(records, i) < SOURCE
}

// One with nothing at all.
pub(crate) fn bare(records: &[u8], i: usize, step: Step) -> bool
    ensures { Steps.bare (step_number step) (fields 4 records.now i) ≡ require result }
{
    let unused = label_at(records, i) == 0 && value_at(records, i) == 0;
    plain(records, i, step) && unused && place_at(records, i) == 0
}

// Past the step that closes, if it stands here.
pub(crate) fn closed(records: &[u8], at: Place, step: Step) -> Option<Place>
    ensures { ClosedIs records.now at (step_number step) result }
{
    if !fits(records.len(), at.record, STEP_RECORD) || !bare(records, at.record, step) {
        return None;
    }
    Some(Place {
        record: at.record + STEP_RECORD,
        ..at
    })
}
