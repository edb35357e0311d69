//! A function that does nothing: its contract is a theorem about the definitions that the other contracts cite.
ghost use Rattle.book.specs.Bill.{WeightsMeant};

/// What the bill's weights are for: each counts 1024ths of a second, and two-way codes are worth double.
pub fn weights_have_a_meaning()
    ensures { WeightsMeant }
{}
