// Checks each input on standard input, and where it is said so one byte more, every shorter one and every change of a
// byte; a line for each input tells how many were tables and how many step lists, and a sum over all answers in turn,
// which the second implementation must have told as well. Numbers are 32 bits, the lowest byte first: how many inputs,
// and of each 1 for changes or 0, its length and its bytes.
#![tactic(auto)]

mod tally;

use std::io::Read;
use tally::Tally;

const LONGEST: usize = 65535;

// What the input no longer holds counts as zeros. Each program has its own: no clause says which bytes a read gives,
// and by document 01 a library has no public function without a stated result.
fn number(rt: &HostRuntime) -> u32 {
    let mut bytes = [0u8; 4];
    let _ = rt.stdin().read_exact(&mut bytes);
    u32::from_le_bytes(bytes)
}

fn case(rt: &HostRuntime) {
    let mut buf = [0u8; LONGEST + 1];
    let has_changes = number(rt) != 0;
    let n = (number(rt) as usize).min(LONGEST);
    let _ = rt.stdin().read_exact(&mut buf[..n]);
    let mut tally = Tally::new();
    tally.note(&buf[..n]);
    if has_changes {
        tally.note(&buf[..n + 1]);
        tally.note_shorter(&buf[..n]);
        tally.note_changes(&mut buf[..n]);
    }
    let _ = println!(rt; "{n} bytes, {tally}");
}

fn main(rt: HostRuntime) {
    for _ in 0..number(&rt) {
        case(&rt);
    }
}
