//! The theory of the meter: functions that do nothing, whose contracts are its theorems.
#![tactic(auto)]

ghost use Rattle.account.specs.Book.{BookGrows, BooksKeep};
ghost use Rattle.account.specs.CallRules.{EveryCall};
ghost use Rattle.account.specs.Calls.{CarriesRuns, CallsExact};
ghost use Rattle.account.specs.Single.{single};
ghost use Rattle.account.specs.Statements.{EveryRun};
ghost use Rattle.account.specs.Theorems.{RunsThereAre};
ghost use Rattle.account.specs.Worked.{Worked, WhyFresh};
ghost use Rattle.chip.specs.Laws.{Lawful};

use chip::make::Make;
use wire::wire::Wire;

/// Over every lawful make, every run is accounted for, conserved and billable.
pub fn every_run_is_accounted()
    ensures { EveryRun }
{}

/// Over every lawful make, whatever the meter, the book and the chip stand at, and whatever the wire does. The first test of a call that is wrong refuses
/// it, by that test's number: nothing is sent, and the meter stays. With nothing wrong the call is taken exactly where every transaction was answered;
/// else 2 or 3 is that of its last transaction, and of the meter only the condition may be another, and only after a draw. A call that is taken changes
/// of the meter what that call is to change, and nothing else. A draw asks for five transactions at most, and where its REFRESH was carried out the
/// wanted settings are in force. A look shows the latest code, and a booking gives the entry of the chip's image, whatever image that is.
pub fn every_call_keeps_its_word()
    ensures { EveryCall }
{}

/// Steps over any wire are calls of a run, its cycles are the run's cycles, and a new meter begins one.
pub fn wires_carry_runs<W: Wire>()
    ensures { CarriesRuns W.Make.Make.sheet W.Wire.chip W.Wire.goes W.Wire.passes }
{}

/// On direct and scripted wires every call is settled by what was there before: its answer, its transactions, and all that it leaves.
pub fn calls_are_exact<M: Make>()
    ensures { CallsExact M.Make.sheet M }
{}

/// A booking fills the next free place and leaves every other.
pub fn books_keep_what_they_hold()
    ensures { BooksKeep }
{}

/// Earlier entries never change.
pub fn the_book_only_grows()
    ensures { BookGrows }
{}

/// A make of one channel with other addresses keeps the laws, so nothing rests on the makes with four.
pub fn a_single_channel_is_lawful()
    ensures { Lawful single }
{}

/// The figures worked by hand, all together.
pub fn figures_are_as_worked()
    ensures { Worked }
{}

/// The statements speak of something: runs on both makes that end with a sound entry where nothing has spoilt, a spoilt one, a write-off, and a slip
/// got through doubt.
pub fn there_are_such_runs()
    ensures { RunsThereAre }
{}

/// Why a run begins at a fresh chip.
pub fn a_marked_chip_misleads()
    ensures { WhyFresh }
{}
