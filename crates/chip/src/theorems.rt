//! A function that does nothing: its contract is a theorem about the definitions that the other contracts cite.
ghost use Rattle.chip.specs.Laws.{StaysSound};

use super::make::Make;

/// On every make each sum stays below 2^W and each count below its width, for any input.
pub fn registers_stay_in_range<M: Make>()
    ensures { StaysSound M.Make.sheet }
{}
