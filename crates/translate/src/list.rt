// The whole step list: header, records, text.
ghost use Rattle.std.specs.Prelude.{◌≡◌};
ghost use Rattle.translate.specs.Puts.{ListFits, written_list};

use crate::record::HEADER;
use crate::row::lay_row;
use forms::{Form, put_header};
use grammar::{Drafts, RECORD};

// The drafts are the records at the front of the work slice.
pub(crate) fn write_list(src: &[u8], out: &mut [u8], work: &[u8], drafts: Drafts)
    requires { ListFits src.now work.now drafts.steps drafts.text out.old }
    ensures { out.new ≡ written_list src.now work.now drafts.steps out.old }
{
    put_header(Form::Steps, out, drafts.steps as u16, drafts.text as u32);
    let base = HEADER + RECORD * drafts.steps;
    let mut text = 0;
    for i in 0..drafts.steps {
        text = lay_row(src, out, work, i, base, text);
    }
}
