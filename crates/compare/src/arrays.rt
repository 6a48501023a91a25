// The arrays that the lent slices lie in.
use crate::answer::Answer;
use crate::case::Case;
use crate::fence::Fenced;
use crate::operation::Lent;
use std::fmt;

#[derive(Clone, Copy, Debug, PartialEq, Eq)]
pub enum Array {
    First,
    Second,
    Out,
    Work1,
    Work2,
    Work3,
}

impl Array {
    pub const ALL: [Array; 6] = [
        Array::First,
        Array::Second,
        Array::Out,
        Array::Work1,
        Array::Work2,
        Array::Work3,
    ];
}

impl fmt::Display for Array {
    fn fmt<W: fmt::Write>(&self, f: &mut fmt::Formatter<W>) -> fmt::Result {
        f.write_str(match self {
            Array::First => "first-input",
            Array::Second => "second-input",
            Array::Out => "output",
            Array::Work1 => "work-1",
            Array::Work2 => "work-2",
            Array::Work3 => "work-3",
        })
    }
}

// Each is of one byte, and is looked at whole after the call.
#[derive(Drop)]
pub struct Arrays {
    first: Fenced,
    second: Fenced,
    out: Fenced,
    work1: Fenced,
    work2: Fenced,
    work3: Fenced,
}

impl Arrays {
    // Made where they are kept: handed back, their 394,032 bytes are copied, and lie on the stack twice.
    #[inline(always)]
    pub(crate) fn new() -> Arrays {
        Arrays {
            first: Fenced::new(165),
            second: Fenced::new(165),
            out: Fenced::new(165),
            work1: Fenced::new(90),
            work2: Fenced::new(60),
            work3: Fenced::new(30),
        }
    }

    pub(crate) fn answer(&mut self, case: &Case<'_>) -> Answer {
        self.first.fill(case.first);
        self.second.fill(case.second);
        let [out, work1, work2, work3] = case.lent;
        case.operation.answer(Lent {
            first: self.first.inside(case.first.len()),
            second: self.second.inside(case.second.len()),
            out: self.out.lent(out),
            work1: self.work1.lent(work1),
            work2: self.work2.lent(work2),
            work3: self.work3.lent(work3),
        })
    }

    // To see that a change is noticed, a case may ask for one.
    pub(crate) fn spoil(&mut self, case: &Case<'_>) {
        let Some((array, at)) = case.spoilt else {
            return;
        };
        // Fields and no array by Array as usize: answer lends each by its name, all at once.
        let fenced = match array {
            Array::First => &mut self.first,
            Array::Second => &mut self.second,
            Array::Out => &mut self.out,
            Array::Work1 => &mut self.work1,
            Array::Work2 => &mut self.work2,
            Array::Work3 => &mut self.work3,
        };
        fenced.spoil(at);
    }

    // Whether each holds what it should, in the order of `Array::ALL`.
    pub(crate) fn are_right(&self, case: &Case<'_>) -> [bool; 6] {
        [
            self.first.holds(case.first),
            self.second.holds(case.second),
            self.out.holds(case.output),
            self.work1.holds(case.zeros(0)),
            self.work2.holds(case.zeros(1)),
            self.work3.holds(case.zeros(2)),
        ]
    }
}
