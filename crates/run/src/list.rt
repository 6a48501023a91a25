// The records of a step list.
ghost use Rattle.std.specs.Prelude.{◌≡◌, ◌≤◌};
ghost use Rattle.run.specs.Listed.{RecordIs};

use crate::known::Records;
use forms::STEP_RECORD as RECORD;
use kinds::Step;
use memory::{get16, get32, get64};

// The numbers of a record. kind is a number and no Kind: it goes into a row as it is.
#[derive(Clone, Copy)]
pub(crate) struct Record {
    pub step: Step,
    pub kind: u16,
    pub path: usize,
    pub span: usize,
    pub value: u64,
    pub place: usize,
}

// A number that no step has, as the 0 behind the list, is read as done, with which nothing begins.
pub(crate) fn record_at(list: Records<'_>, i: usize) -> Record
    requires { i ≤ 1024 }
    ensures { RecordIs list.entry.bytes.now i result }
{
    let at = i * RECORD;
    Record {
        step: Step::try_from(get16(list.bytes, at)).unwrap_or(Step::Done),
        kind: get16(list.bytes, at + 2),
        path: usize::from(get16(list.bytes, at + 4)),
        span: usize::from(get16(list.bytes, at + 6)),
        value: get64(list.bytes, at + 8),
        place: get32(list.bytes, at + 16) as usize,
    }
}
