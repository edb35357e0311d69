//! The direct wire to a chip.
ghost use Rattle.std.specs.Prelude.{◌≡◌};
ghost use Rattle.chip.specs.Chip.{fresh_chip};
ghost use Rattle.wire.specs.Direct.{DirectGoes, DirectPasses};
ghost use Rattle.wire.specs.Directs.{direct_is_wire};

use super::wire::Wire;
use chip::chip::Chip;
use chip::make::Make;
use chip::refusal::Refusal;
use chip::state::Codes;

#[derive(Drop)]
pub struct Direct<M> {
    chip: Chip<M>,
}

impl<M: Make> Direct<M> {
    /// A wire to a fresh chip.
    pub fn new() -> Direct<M>
        ensures { result.chip.state ≡ fresh_chip M.Make.sheet }
    {
        Direct { chip: Chip::new() }
    }
}

impl<M: Make> Wire for Direct<M> {
    type Make = M;

    ghost chip = { λ s. s.chip.state };

    ghost goes = { λ u q b r w. DirectGoes M.Make.sheet u.chip.state q b r w.chip.state };

    ghost passes = { λ u ks w. DirectPasses M.Make.sheet u.chip.state ks w.chip.state };

    ghost meant = { direct_is_wire M.Make.sheet (λ s. s.chip.state) };

    #[inline(always)]
    fn cycle(&mut self, codes: [Codes; 4]) {
        self.chip.cycle(codes);
    }

    fn read(&mut self, start: u8, bytes: &mut [u8]) -> Result<(), Refusal> {
        self.chip.read(start, bytes)
    }

    fn write(&mut self, address: u8, bytes: &[u8]) -> Result<(), Refusal> {
        self.chip.write(address, bytes)
    }

    fn send(&mut self, command: u8) -> Result<(), Refusal> {
        self.chip.send(command)
    }
}
