// The numbers of the record at a byte of the records; one that lies outside is read as 0.
// No struct of records and place with methods: `Record { recs, at: i }.label()` is no plainer than `label_at(recs, i)`.
#![tactic(auto)]

ghost use Rattle.std.specs.Prelude.{◌≡◌, ◌+◌, ◌≤◌, ◌<◌};
ghost use Rattle.memory.specs.Memory.{word_at};

use memory::{fits, get16, get32, get64};

// The place is computed only where it lies inside, so that it cannot overflow.
fn short(recs: &[u8], i: usize, k: usize) -> usize
    requires { k ≤ 16 }
    ensures { (result ≡ word_at 2 recs.now (i + k)) × (result < 65536) }
{
    if fits(recs.len(), i, k + 2) {
        usize::from(get16(recs, i + k))
    } else {
        0
    }
}

// A table record's kind.
pub fn kind_at(recs: &[u8], i: usize) -> u16
    ensures { result ≡ word_at 2 recs.now i }
{
    get16(recs, i)
}

// A step record's step.
pub fn step_at(recs: &[u8], i: usize) -> u16
    ensures { result ≡ word_at 2 recs.now i }
{
    get16(recs, i)
}

// A table record's depth; a step record has its kind there.
pub fn depth_at(recs: &[u8], i: usize) -> usize
    ensures { (result ≡ word_at 2 recs.now (i + 2)) × (result < 65536) }
{
    short(recs, i, 2)
}

// The place of a name or a path.
pub fn label_at(recs: &[u8], i: usize) -> usize
    ensures { (result ≡ word_at 2 recs.now (i + 4)) × (result < 65536) }
{
    short(recs, i, 4)
}

pub fn span_at(recs: &[u8], i: usize) -> usize
    ensures { (result ≡ word_at 2 recs.now (i + 6)) × (result < 65536) }
{
    short(recs, i, 6)
}

pub fn value_at(recs: &[u8], i: usize) -> u64
    ensures { result ≡ word_at 8 recs.now (i + 8) }
{
    if fits(recs.len(), i, 16) {
        get64(recs, i + 8)
    } else {
        0
    }
}

// A step's place in the source.
pub fn place_at(recs: &[u8], i: usize) -> usize
    ensures { result ≡ word_at 4 recs.now (i + 16) }
{
    if fits(recs.len(), i, 20) {
        get32(recs, i + 16) as usize
    } else {
        0
    }
}
