// Records of 20 bytes: read from the drafts, written to the step list behind its header.
ghost use Rattle.std.specs.Prelude.{◌≡◌, ◌+◌, ◌≤◌, length};
ghost use Rattle.memory.specs.Memory.{stored};
ghost use Rattle.translate.specs.Settled.{fields_at, field_bytes};

pub(crate) const HEADER: usize = 24;

// A record's six numbers. step and kind are no enums: any bytes may stand in a work slice, and read refuses none.
#[derive(Clone, Copy)]
pub struct Fields {
    pub step: u16,
    pub kind: u16,
    pub path: u16,
    pub span: u16,
    pub value: u64,
    pub place: u32,
}

impl Fields {
    pub(crate) fn read(work: &[u8], at: usize) -> Fields
        requires { at ≤ 65536 }
        ensures { result ≡ fields_at work.now at }
    {
        Fields {
            step: memory::get16(work, at),
            kind: memory::get16(work, at + 2),
            path: memory::get16(work, at + 4),
            span: memory::get16(work, at + 6),
            value: memory::get64(work, at + 8),
            place: memory::get32(work, at + 16),
        }
    }

    // Not one writer with grammar's `put`, which stores six numbers alike: it would be public and ask nothing, so it
    // would test for room that the caller gives here and the type there: no plainer.
    pub(crate) fn write(self, out: &mut [u8], at: usize)
        requires { at + 20 ≤ length out.old }
        ensures { out.new ≡ stored out.old at (field_bytes self) }
    {
        memory::put16(out, at, self.step);
        memory::put16(out, at + 2, self.kind);
        memory::put16(out, at + 4, self.path);
        memory::put16(out, at + 6, self.span);
        memory::put64(out, at + 8, self.value);
        memory::put32(out, at + 16, self.place);
    }
}
