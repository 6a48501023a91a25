// How many answers of each kind an operation gave.
use crate::answer::Answer;
use std::fmt;

#[derive(Clone, Copy)]
pub struct Count {
    cases: u64,
    same: u64,
    accepted: u64,
    // By the number of the refusal, from 1.
    refused: [u64; 22],
}

impl Count {
    pub const NONE: Count = Count {
        cases: 0,
        same: 0,
        accepted: 0,
        refused: [0; 22],
    };

    // Answers how many cases there are now.
    pub(crate) fn note(&mut self, answer: Answer, same: bool) -> u64 {
        match answer {
            Ok(_) => self.accepted = self.accepted.wrapping_add(1),
            Err(refused) => {
                if let Some(n) = self.refused.get_mut(refused.number) {
                    *n = n.wrapping_add(1);
                }
            }
        }
        self.cases = self.cases.wrapping_add(1);
        self.same = self.same.wrapping_add(u64::from(same));
        self.cases
    }
}

impl fmt::Display for Count {
    fn fmt<W: fmt::Write>(&self, f: &mut fmt::Formatter<W>) -> fmt::Result {
        let Count {
            cases,
            same,
            accepted,
            ..
        } = self;
        write!(f, "{cases} cases, {same} the same, {accepted} accepted")?;
        for (number, n) in self.refused.iter().enumerate() {
            if *n > 0 {
                write!(f, ", {n} refused {number}")?;
            }
        }
        Ok(())
    }
}
