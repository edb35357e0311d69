//! Where the crew's lines are answered: the desk of a meter with a scripted wire to a chip of its own, and a book of 64 places. The struct
//! stands alone in this file, since its ghost field imports whatever the file imports.
ghost use Rattle.crew.specs.Runs.{OnRun, chip_at};
ghost use Rattle.desk.specs.Standing.{standing};

use chip::make::Make;
use desk::desk::Desk;
use wire::direct::Direct;

mod answers;
mod requests;

/// How many entries the book has room for.
pub const PLACES: usize = 64;

/// It ends by `end`, which leaves no slip unspent.
pub struct Post<'a, M: Make> {
    desk: Desk<'a, Direct<M>>,
    // the statements about runs hold of the meter and its book
    pub ghost run: { ∥ OnRun M.Make.sheet chip_at (standing desk) ∥₁ },
}
