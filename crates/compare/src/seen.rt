// What an operation does in a case, and the case's line.
use crate::answer::{Answer, Told};
use crate::arrays::{Array, Arrays};
use crate::case::Case;
use std::io::Write;

// The answer, and whether each array holds what it should.
#[derive(Clone, Copy)]
pub struct Seen {
    pub answer: Answer,
    pub is_right: [bool; 6],
}

impl Seen {
    pub(crate) fn of(case: &Case<'_>) -> Seen {
        let mut arrays = Arrays::new();
        let answer = arrays.answer(case);
        arrays.spoil(case);
        let is_right = arrays.are_right(case);
        Seen { answer, is_right }
    }

    pub(crate) fn is_as_expected(&self, case: &Case<'_>) -> bool {
        self.answer == case.expected && self.is_right.iter().all(|is_right| *is_right)
    }
}

pub(crate) fn tell_named(rt: &HostRuntime, case: &Case<'_>, seen: &Seen) {
    let _ = print!(rt; "{} ", case.operation);
    let _ = rt.stdout().write_all(case.name);
    let _ = println!(rt; ": same: {}", Told(seen.answer));
}

// With the case's number among those of its operation, and what is not as it should be.
pub(crate) fn tell_differing(rt: &HostRuntime, case: &Case<'_>, seen: &Seen, n: u64) {
    let space = if case.name.is_empty() { "" } else { " " };
    let _ = print!(rt; "{} {n}{space}", case.operation);
    let _ = rt.stdout().write_all(case.name);
    let _ = print!(rt;
        ": DIFFERS: {}, expected {}; wrong:",
        Told(seen.answer),
        Told(case.expected)
    );
    if seen.answer != case.expected {
        let _ = print!(rt; " answer");
    }
    for (array, is_right) in Array::ALL.iter().zip(seen.is_right) {
        if !is_right {
            let _ = print!(rt; " {array}");
        }
    }
    let _ = println!(rt; "");
}
