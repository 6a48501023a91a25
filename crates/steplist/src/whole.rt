// Whether bytes are a step list.
ghost use Rattle.std.specs.Prelude.{◌≡◌};
ghost use Rattle.steplist.specs.Whole.{whole_in, is_step_list_of};

use crate::walk::statements;
use forms::{Form, count, records_of, text_of};
use layout::{Body, Place};

fn whole(records: &[u8], text: &[u8]) -> bool
    ensures { result ≡ whole_in records.now text.now }
{
    let body = Body { records, text };
    let start = Place { record: 0, text: 0 };
    let Some(end) = statements(body, 0, start) else {
        return false;
    };
    records.len() <= end.record && text.len() <= end.text
}

pub fn is_step_list(b: &[u8]) -> bool
    ensures { result ≡ is_step_list_of b.now }
{
    count(Form::Steps, b).is_some() && whole(records_of(Form::Steps, b), text_of(b))
}
