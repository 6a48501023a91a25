// How tables and step lists differ: their number, a record's bytes, the most text, and what an element's record is.
ghost use Rattle.std.specs.Prelude.{◌≡◌, ◌≤◌};
ghost use Rattle.paper.specs.TableDecoder.{in_table};
ghost use Rattle.paper.specs.StepDecoder.{in_steps};
ghost use Rattle.forms.specs.Form.{form_of, size_of, number_of, most_text, top_of, kind_of, fits_in, fields};

use fields::{depth_at, kind_at, label_at, place_at, step_at};
use kinds::Step;

// The bytes of a table's record, and of a step's.
pub const TABLE_RECORD: usize = 16;

pub const STEP_RECORD: usize = 20;

// In a table, the place of the name of a record that has none.
pub const NAMELESS: u16 = 65535;

// An enum and not a trait with two types: a trait would state each of these numbers as a ghost member and a law.
#[derive(Clone, Copy, Debug, PartialEq, Eq)]
pub enum Form {
    Table,
    Steps,
}

impl Form {
    // The bytes of a record.
    pub fn size(self) -> usize
        ensures { (result ≡ size_of self) × (16 ≤ result) × (result ≤ 20) }
    {
        match self {
            Form::Table => TABLE_RECORD,
            Form::Steps => STEP_RECORD,
        }
    }

    // The number in the header.
    pub(crate) fn number(self) -> usize
        ensures { (result ≡ number_of self) × (result ≤ 2) }
    {
        match self {
            Form::Table => 2,
            Form::Steps => 1,
        }
    }

    pub(crate) fn most_text(self) -> usize
        ensures { (result ≡ most_text self) × (result ≤ 32768) }
    {
        match self {
            Form::Table => 16384,
            Form::Steps => 32768,
        }
    }

    // How deep a vector may stand.
    pub fn top(self) -> usize
        ensures { (result ≡ top_of self) × (result ≤ 32) }
    {
        match self {
            Form::Table => 32,
            Form::Steps => 31,
        }
    }

    // The kind of the basic whose record this is.
    pub fn kind_of(self, recs: &[u8], i: usize) -> u16
        ensures { result ≡ kind_of self recs.now i }
    {
        match self {
            Form::Table => kind_at(recs, i),
            Form::Steps => depth_at(recs, i) as u16,
        }
    }

    // Whether this is the record of an element that stands so deep.
    pub fn element_fits(self, recs: &[u8], i: usize, depth: usize) -> bool
        ensures { result ≡ fits_in self recs.now i depth }
    {
        match self {
            Form::Table => table_element(recs, i, depth),
            Form::Steps => item(recs, i),
        }
    }
}

fn table_element(recs: &[u8], i: usize, depth: usize) -> bool
    ensures { result ≡ in_table.fits depth (fields 0 recs.now i) }
{
    depth_at(recs, i) == depth && label_at(recs, i) == usize::from(NAMELESS)
}

fn item(recs: &[u8], i: usize) -> bool
    ensures { result ≡ in_steps.fits 0 (fields 4 recs.now i) }
{
    step_at(recs, i) == Step::Item.number() && label_at(recs, i) == 0 && place_at(recs, i) == 0
}
