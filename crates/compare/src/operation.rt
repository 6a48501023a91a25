// The four operations, numbered as a case's head numbers them.
use crate::answer::{Answer, Refused};
use std::fmt;

#[derive(Clone, Copy, Debug, PartialEq, Eq)]
pub enum Operation {
    Translate = 0,
    Run = 1,
    Main = 2,
    Resolve = 3,
}

// What is lent for one answer; an operation uses what it needs of it.
pub struct Lent<'a> {
    pub first: &'a [u8],
    pub second: &'a [u8],
    pub out: &'a mut [u8],
    pub work1: &'a mut [u8],
    pub work2: &'a mut [u8],
    pub work3: &'a mut [u8],
}

// A number that no operation has. As in kinds, try_from hands it back, which ALL.get would not.
#[derive(Clone, Copy, Debug, PartialEq, Eq)]
pub struct Unknown(pub u32);

impl TryFrom<u32> for Operation {
    type Error = Unknown;

    fn try_from(number: u32) -> Result<Operation, Unknown> {
        match number {
            0 => Ok(Operation::Translate),
            1 => Ok(Operation::Run),
            2 => Ok(Operation::Main),
            3 => Ok(Operation::Resolve),
            _ => Err(Unknown(number)),
        }
    }
}

impl fmt::Display for Operation {
    fn fmt<W: fmt::Write>(&self, f: &mut fmt::Formatter<W>) -> fmt::Result {
        f.write_str(match self {
            Operation::Translate => "translate",
            Operation::Run => "run",
            Operation::Main => "main",
            Operation::Resolve => "resolve",
        })
    }
}

impl Operation {
    pub const ALL: [Operation; 4] = [
        Operation::Translate,
        Operation::Run,
        Operation::Main,
        Operation::Resolve,
    ];

    // How many of the three work slices it uses.
    pub(crate) fn work_slices(self) -> usize {
        match self {
            Operation::Translate => 1,
            Operation::Run => 2,
            Operation::Main => 0,
            Operation::Resolve => 3,
        }
    }

    pub(crate) fn answer(self, lent: Lent<'_>) -> Answer {
        let Lent {
            first,
            second,
            out,
            work1,
            work2,
            work3,
        } = lent;
        let answer = match self {
            Operation::Translate => translate::translate(first, out, work1),
            Operation::Run => run::run(first, second, out, work1, work2),
            Operation::Main => main_table::main(first, out),
            Operation::Resolve => resolve::resolve(first, out, work1, work2, work3),
        };
        answer.map_err(Refused::from)
    }
}
