// Whether bytes are a table.
ghost use Rattle.std.specs.Prelude.{◌≡◌};
ghost use Rattle.table.specs.Whole.{whole_in, is_table_of};

use crate::once::distinct;
use crate::walk::entries;
use forms::{Form, count, records_of, text_of};
use layout::{Body, Place};

fn whole(records: &[u8], text: &[u8], n: usize) -> bool
    ensures { result ≡ whole_in records.now text.now n }
{
    let body = Body { records, text };
    let start = Place { record: 0, text: 0 };
    let Some(end) = entries(body, 1, n, start) else {
        return false;
    };
    let left_over = end.record < records.len() || end.text < text.len();
    !left_over && distinct(body, 0, n)
}

pub fn is_table(b: &[u8]) -> bool
    ensures { result ≡ is_table_of b.now }
{
    let Some(n) = count(Form::Table, b) else {
        return false;
    };
    whole(records_of(Form::Table, b), text_of(b), n)
}
