// Compares the four operations with the second implementation, byte for byte. Standard input holds how many cases
// there are, then each case: its head, its name, its inputs and the output that is expected. A case with a name gets
// a line, and so does one that differs; at the end each operation gets a line.
#![tactic(auto)]

mod answer;
mod arrays;
mod case;
mod count;
mod fence;
mod operation;
mod seen;

use case::{Case, number};
use count::Count;
use operation::Operation;
use seen::Seen;

// What does not fit counts as nothing, so that the case is missing in the end.
fn compare_next(rt: &HostRuntime, counts: &mut [Count; 4]) {
    let mut body = [0u8; 160000];
    let Some(case) = Case::read(rt, &mut body) else {
        return;
    };
    let seen = Seen::of(&case);
    let same = seen.is_as_expected(&case);
    let n = counts[case.operation as usize].note(seen.answer, same);
    if !same {
        seen::tell_differing(rt, &case, &seen, n);
    } else if !case.name.is_empty() {
        seen::tell_named(rt, &case, &seen);
    }
}

fn main(rt: HostRuntime) {
    let mut counts = [Count::NONE; 4];
    for _ in 0..number(&rt) {
        compare_next(&rt, &mut counts);
    }
    for (operation, count) in Operation::ALL.iter().zip(counts) {
        let _ = println!(rt; "{operation}: {count}");
    }
}
