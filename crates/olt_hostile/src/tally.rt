//! How many cases of a table came out as they should, and which was the first that did not.

use std::io;

/// How many cases of a table came out as they should, of how many, and which was the first that did not.
#[derive(Clone, Copy, Default, Drop)]
pub(crate) struct Tally {
    cases: u64,
    right: u64,
    first_wrong: Option<(&'static str, usize)>,
}

impl Tally {
    /// Counts a case, which has a name and a number, as one that came out right or wrong.
    pub(crate) fn count(&mut self, name: &'static str, number: usize, right: bool) {
        self.cases = self.cases.saturating_add(1);
        if right {
            self.right = self.right.saturating_add(1);
        } else if self.first_wrong.is_none() {
            self.first_wrong = Some((name, number));
        }
    }

    /// Prints what came of a table, in a line, and tells whether each case came out as it should.
    pub(crate) fn tell<R: Print>(&self, rt: &R, table: &str) -> io::Result<bool> {
        let Tally {
            cases,
            right,
            first_wrong,
        } = *self;
        match first_wrong {
            None => println!(rt; "{table}: {right} of {cases} as they should be")?,
            Some((name, number)) => {
                println!(rt;
                    "{table}: {right} of {cases} as they should be, the first other one: {name}, {number}"
                )?
            }
        }
        Ok(first_wrong.is_none())
    }
}
