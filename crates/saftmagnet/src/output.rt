// Bytes out, once the whole answer is there: by one call of `write_all`. Where the system takes only a part of them and
// then fails, as on a full disk, that part stays written, and standard error says that the rest is missing.
ghost use Rattle.std.specs.Prelude.{◌≡◌};
ghost use Rattle.refusal.specs.Refused.{number_of};
ghost use Rattle.saftmagnet.specs.Line.{refusal};

use arrayvec::ArrayString;
use refusal::Refusal;
use std::io::Write;

pub(crate) fn put(rt: &HostRuntime, bytes: &[u8]) {
    if let Err(error) = rt.stdout().write_all(bytes) {
        crate::input::complain(rt, "standard output", error);
    }
}

// `refused N at P` and a line's end. A refusal's `Display` promises these words only where its writer takes them;
// here there is room for them.
#[tactic(auto, using(crate::proofs::Decimals::written), unfolding(crate::specs::Line::refusal))]
pub(crate) fn refusal_line(refused: Refusal) -> ArrayString<64>
    ensures { result.bytes ≡ refusal (number_of refused.reason) refused.place }
{
    let mut line = ArrayString::new();
    let mut number = itoa::Buffer::new();
    let mut place = itoa::Buffer::new();
    line.push_str("refused ");
    line.push_str(number.format(refused.reason.number()));
    line.push_str(" at ");
    line.push_str(place.format(refused.place));
    line.push_str("\n");
    line
}
