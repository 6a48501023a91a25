// Does each operation on a description so many times: translate, run of its list over the empty table, main of the
// whole table, and resolve. One time is the difference of two counts. Standard input holds five numbers of 32 bits, the
// lowest byte first, which are the times of each and the description's length; then the description. Each time is a
// line.
#![tactic(auto)]

use refusal::Refusal;
use std::io::Read;

type Answer = Result<usize, Refusal>;

const EMPTY: [u8; 24] = *b"\x02\0\0\0\x18\0\0\0\0\0\0\0\x18\0\0\0\0\0\0\0\x18\0\0\0";

// What the input no longer holds counts as zeros. Each program has its own: no clause says which bytes a read gives,
// and by document 01 a library has no public function without a stated result.
fn number(rt: &HostRuntime) -> u32 {
    let mut bytes = [0u8; 4];
    let _ = rt.stdin().read_exact(&mut bytes);
    u32::from_le_bytes(bytes)
}

// The next n bytes. Where there is no room for them none is read, and all of buf counts.
fn description<'a>(rt: &HostRuntime, buf: &'a mut [u8], n: usize) -> &'a [u8] {
    if n > buf.len() {
        return buf;
    }
    let _ = rt.stdin().read_exact(&mut buf[..n]);
    &buf[..n]
}

fn repeat<F: FnMut() -> Answer>(rt: &HostRuntime, times: u32, mut operation: F)
    requires { F.IsAlwaysCallable operation }
{
    for _ in 0..times {
        let _ = match operation() {
            Ok(n) => println!(rt; "done {n}"),
            Err(refusal) => println!(rt; "{refusal}"),
        };
    }
}

// What an operation has written. A refusal has written nothing; what is done with that is refused with 9 or 10.
fn written(answer: Answer, out: &[u8]) -> &[u8] {
    answer.ok().and_then(|n| out.get(..n)).unwrap_or(&[])
}

fn main(rt: HostRuntime) {
    let (translations, runs) = (number(&rt), number(&rt));
    let (mains, resolves) = (number(&rt), number(&rt));
    let mut buf = [0u8; 32768];
    let n = number(&rt) as usize;
    let source = description(&rt, &mut buf, n);
    let mut list = [0u8; 53272];
    let mut out = [0u8; 32792];
    let mut work1 = [0u8; 65536];
    let mut work2 = [0u8; 65536];
    let mut work3 = [0u8; 65536];
    repeat(
        &rt,
        translations,
        || translate::translate(source, &mut list, &mut work1),
    );
    let answer = translate::translate(source, &mut list, &mut work1);
    let list = written(answer, &list);
    repeat(
        &rt,
        runs,
        || run::run(list, &EMPTY, &mut out, &mut work1, &mut work2),
    );
    // A run may take long, so the whole table is made only where it is used.
    if mains > 0 {
        let mut whole = [0u8; 32792];
        let answer = run::run(list, &EMPTY, &mut whole, &mut work1, &mut work2);
        let whole = written(answer, &whole);
        repeat(&rt, mains, || main_table::main(whole, &mut out));
    }
    repeat(
        &rt,
        resolves,
        || resolve::resolve(source, &mut out, &mut work1, &mut work2, &mut work3),
    );
}
