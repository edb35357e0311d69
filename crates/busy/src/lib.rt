//! Runs of a chip that converts on while its bus is busy: functions that do nothing, whose contracts are theorems.
#![tactic(auto)]

ghost use Rattle.busy.specs.Statements.{EveryBusyRun, EveryBusyCall, BusyIsPlain};
ghost use Rattle.busy.specs.Theorems.{ImagesAlone, BusyRunsThereAre};
ghost use Rattle.busy.specs.Turning.{LawsNotEnough};
ghost use Rattle.busy.specs.Plain.{ImageAlone};
ghost use Rattle.busy.specs.Wires.{CarriesBusyRuns, IsBusyWire, Among};

use busy_wire::BusyWire;
use wire::wire::Wire;

pub mod busy_wire;

/// Account, conservation and bill hold wherever the cycles come: between calls, and before, between and after a call's transactions.
pub fn every_busy_run_is_accounted()
    ensures { EveryBusyRun }
{}

/// A draw puts the wanted settings in force, a look shows the code of its REFRESH_V, and, on a make whose registers show the image alone where a booking
/// reads, a booking gives the image's entry, wherever the cycles come.
pub fn every_busy_call_keeps_its_word()
    ensures { EveryBusyCall }
{}

/// Cycles in a call count just as if they had come before or after it.
pub fn busy_runs_are_plain()
    ensures { BusyIsPlain }
{}

/// On the makes that there are, what a booking reads stands still while the chip converts.
pub fn images_stand_alone()
    ensures { ImagesAlone }
{}

/// Why they must: a make keeps all laws of a make, and yet a cycle between two reads of a booking has it mark a sound stretch spoilt.
pub fn the_laws_are_not_enough()
    ensures { LawsNotEnough }
{}

/// The statements speak of something: a cycle in the midst of a draw is in that draw's entry, one in the midst of its booking is not; and a look shows
/// the code from before a cycle in its midst.
pub fn there_are_busy_runs()
    ensures { BusyRunsThereAre }
{}

/// Steps over a wire to a chip that converts on are calls of a busy run, its cycles are the run's cycles, and a new meter begins one.
pub fn busy_wires_carry_runs<W: BusyWire>()
    ensures { ImageAlone W.Make.Make.sheet → CarriesBusyRuns W.Make.Make.sheet W.BusyWire.chip W.BusyWire.goes W.BusyWire.passes }
{}

/// Any wire, with cycles around each of its transactions, is a wire to a chip that converts on.
pub fn any_wire_may_convert_on<W: Wire>()
    ensures { IsBusyWire W.Make.Make.sheet W.Wire.chip (Among W.Wire.goes W.Wire.passes) W.Wire.passes }
{}
