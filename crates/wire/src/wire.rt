//! What every wire means: the state of the chip behind it.
ghost use Rattle.std.specs.Prelude.{◌≡◌, Bool, true, List, [], length, is_err};
ghost use Rattle.chip.specs.Chip.{Request, read, write, send};
ghost use Rattle.chip.specs.declared.state.Codes.{Codes as Pair};
ghost use Rattle.chip.specs.declared.state.State.{State};
ghost use Rattle.wire.specs.Wire.{Reply, IsWire, Transacted, heard_of};

use chip::make::Make;
use chip::refusal::Refusal;
use chip::state::Codes;

pub trait Wire {
    /// the make of the chip behind the wire
    type Make: Make;

    /// the state of that chip
    ghost chip: { Self → State };

    /// how this very wire may take a request, whether the chip carried it out, what comes back, and what the wire is then
    ghost goes: { Self → Request → Bool → Reply → Self → Type 0 };

    /// what a cycle leaves of the wire
    ghost passes: { Self → List Pair → Self → Type 0 };

    /// A conversion cycle of the chip; it always arrives.
    fn cycle(&mut self, codes: [Codes; 4])
        ensures { passes self.old codes self.new };

    /// Fills `bytes` from an address on; a refused read leaves them untouched.
    fn read(&mut self, start: u8, bytes: &mut [u8]) -> Result<(), Refusal>
        ensures went { Transacted goes self.old (read start (length bytes.old)) (heard_of result bytes.new) self.new }
        ensures kept { is_err result ≡ true → bytes.new ≡ bytes.old };

    fn write(&mut self, address: u8, bytes: &[u8]) -> Result<(), Refusal>
        ensures { Transacted goes self.old (write address bytes.now) (heard_of result []) self.new };

    fn send(&mut self, command: u8) -> Result<(), Refusal>
        ensures { Transacted goes self.old (send command) (heard_of result []) self.new };

    ghost meant: { IsWire Self.Make.Make.sheet chip goes passes };
}
