// How many of the inputs are tables and step lists, and a sum over the answers in turn.
ghost use Rattle.std.specs.Prelude.{◌<◌};

use std::fmt;

#[derive(Drop)]
pub struct Tally {
    tables: u64,
    lists: u64,
    sum: u64,
    // What the bytes are drawn from that stand in place of others.
    seed: u64,
    ghost sum_is_rest: { sum < 1000003 },
    ghost seed_is_rest: { seed < 2147483648 },
}

impl Tally {
    pub(crate) fn new() -> Tally {
        Tally {
            tables: 0,
            lists: 0,
            sum: 0,
            seed: 1,
        }
    }

    // The second implementation sums the answers the same way.
    pub(crate) fn note(&mut self, input: &[u8]) {
        let table = u64::from(table::is_table(input));
        let list = u64::from(steplist::is_step_list(input));
        self.tables = self.tables.wrapping_add(table);
        self.lists = self.lists.wrapping_add(list);
        self.sum = (self.sum * 31 + table + 2 * list + 1) % 1000003;
    }

    // Each front of the input, but for the whole.
    pub(crate) fn note_shorter(&mut self, input: &[u8]) {
        for n in 0..input.len() {
            self.note(&input[..n]);
        }
    }

    fn draw(&mut self) -> u8 {
        self.seed = (self.seed * 1103515245 + 12345) % 2147483648;
        (self.seed / 65536 % 255 + 1) as u8
    }

    // Each byte in turn as three others.
    pub(crate) fn note_changes(&mut self, input: &mut [u8]) {
        for at in 0..input.len() {
            let byte = input[at];
            let drawn = byte.wrapping_add(self.draw());
            for other in [byte ^ 1, byte.wrapping_add(128), drawn] {
                input[at] = other;
                self.note(input);
            }
            input[at] = byte;
        }
    }
}

impl fmt::Display for Tally {
    fn fmt<W: fmt::Write>(&self, f: &mut fmt::Formatter<W>) -> fmt::Result {
        let Tally {
            tables,
            lists,
            sum,
            ..
        } = self;
        write!(f, "tables {tables}, step lists {lists}, sum {sum}")
    }
}
