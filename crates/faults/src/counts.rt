//! How many runs there were, what was placed in them, and what was refused for it.

use std::fmt;

// Over the columns of the table, in two lines.
pub(crate) const HEADING: &str =
    "                                                              outcomes placed     draws refused  bookings refused     looks refused
kind     scenario                    runs        0        1        2        3     by 2     by 3     by 2     by 3     by 2     by 3";

// Columns of the table: the first of the outcomes' four, and of each kind of call those that were refused by 2 and by 3.
pub(crate) const RUNS: usize = 0;

pub(crate) const OUTCOMES: usize = 1;

pub(crate) const DRAWS: [usize; 2] = [5, 6];

pub(crate) const BOOKINGS: [usize; 2] = [7, 8];

pub(crate) const LOOKS: [usize; 2] = [9, 10];

const COLUMNS: usize = 11;

// A line of the table, as one row of numbers: a sum or a print of it is one loop.
#[derive(Clone, Copy, Default)]
pub(crate) struct Counts([u32; COLUMNS]);

impl Counts {
    pub(crate) fn count(&mut self, column: usize) {
        if let Some(count) = self.0.get_mut(column) {
            *count = count.saturating_add(1);
        }
    }

    // Whether each failure that was placed refused one call, and nothing else did.
    pub(crate) fn all_struck(&self) -> bool {
        let [
            _,
            _,
            failed,
            broken,
            lost,
            draws_2,
            draws_3,
            bookings_2,
            bookings_3,
            looks_2,
            looks_3,
        ] = self.0;
        let by_2 = draws_2.saturating_add(bookings_2).saturating_add(looks_2);
        let by_3 = draws_3.saturating_add(bookings_3).saturating_add(looks_3);
        by_2 == failed && by_3 == broken.saturating_add(lost)
    }

    pub(crate) fn add(&mut self, other: Counts) {
        for column in 0..COLUMNS {
            self.0[column] = self.0[column].saturating_add(other.0[column]);
        }
    }
}

impl fmt::Display for Counts {
    fn fmt<W: fmt::Write>(&self, f: &mut fmt::Formatter<W>) -> fmt::Result {
        for count in self.0 {
            write!(f, "{count:>9}")?;
        }
        Ok(())
    }
}
