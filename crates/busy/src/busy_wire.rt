//! What a wire to a chip that converts on while a transaction runs would mean.
ghost use Rattle.std.specs.Prelude.{Bool, List};
ghost use Rattle.busy.specs.Wires.{IsBusyWire};
ghost use Rattle.chip.specs.Chip.{Request};
ghost use Rattle.chip.specs.declared.state.Codes.{Codes};
ghost use Rattle.chip.specs.declared.state.State.{State};
ghost use Rattle.wire.specs.Wire.{Reply};

use chip::make::Make;

/// The meaning alone: no code runs on it, since a meter asks for a `Wire`.
pub trait BusyWire {
    /// the make of the chip behind the wire
    type Make: Make;

    /// the state of that chip
    ghost chip: { Self → State };

    /// how this very wire may take a request, whether the chip carried it out, what comes back, and what the wire is then
    ghost goes: { Self → Request → Bool → Reply → Self → Type 0 };

    /// what a cycle between transactions leaves of the wire
    ghost passes: { Self → List Codes → Self → Type 0 };

    ghost meant: { IsBusyWire Self.Make.Make.sheet chip goes passes };
}
