//! A wire over any wire that fails as its script says.
ghost use Rattle.std.specs.Fn.{FnOnceReturnsAtMut};
ghost use Rattle.std.specs.Prelude.{◌≡◌, ◌≤◌};
ghost use Rattle.chip.specs.Chip.{read};
ghost use Rattle.wire.specs.Scripted.{Played, ScriptedGoes, ScriptedPasses, seen, unplayed};
ghost use Rattle.wire.specs.Scripts.{added_to};
ghost use Rattle.wire.specs.Scripteds.{scripted_is_wire};
ghost use Rattle.wire.specs.Wire.{Transacted};

use super::outcome::Outcome;
use super::script::Script;
use super::wire::Wire;
use chip::chip::{LONGEST_READ, is_readable};
use chip::refusal::{Refusal, Who};
use chip::state::Codes;

#[derive(Drop)]
pub struct Scripted<W> {
    below: W,
    script: Script,
}

impl<W> Scripted<W> {
    /// Over a wire, with no outcome added.
    pub fn new(below: W) -> Scripted<W>
        ensures { seen result ≡ unplayed below }
    {
        Scripted {
            below,
            script: Script::new(),
        }
    }

    /// Adds an outcome: 0 to 3, and 256 in all.
    pub fn add(&mut self, number: u8) -> Result<(), Refusal>
        ensures below { self.new.below ≡ self.old.below }
        ensures added { added_to self.old.script number result self.new.script }
    {
        self.script.add(number)
    }
}

impl<W: Wire> Scripted<W> {
    // Takes the oldest outcome, which decides whether the wire below hears the request and the caller its answer.
    fn play<R: Drop, F: FnOnce(&mut W) -> Result<R, Refusal>>(
        &mut self,
        address: u8,
        request: F,
    ) -> Result<R, Refusal>
        requires { F.IsAlwaysCallable request }
        ensures { Played (FnOnceReturnsAtMut F.FnOnce request) address (seen self.old) result (seen self.new) }
    {
        match self.script.take() {
            Outcome::Pass => request(&mut self.below),
            Outcome::Refuse => Err(Refusal::NotAcknowledged(Who::Wire, address)),
            Outcome::Break => Err(Refusal::Broken(address)),
            Outcome::DropReply => {
                let _ = request(&mut self.below);
                Err(Refusal::Broken(address))
            }
        }
    }
}

impl<W: Wire> Wire for Scripted<W> {
    type Make = W::Make;

    ghost chip = { λ s. W.Wire.chip s.below };

    ghost goes = { λ u q b r w. ScriptedGoes W.Wire.goes (seen u) q b r (seen w) };

    ghost passes = { λ u ks w. ScriptedPasses W.Wire.passes u ks w };

    ghost meant = { scripted_is_wire W.Make.Make.sheet W.Wire.meant };

    #[inline(always)]
    fn cycle(&mut self, codes: [Codes; 4]) {
        self.below.cycle(codes);
    }

    fn read(&mut self, start: u8, bytes: &mut [u8]) -> Result<(), Refusal> {
        let length = bytes.len();
        if !is_readable(length) {
            return Err(Refusal::Limits);
        }
        // A match of its own, and not `play`: a reply goes straight to the caller's bytes.
        match self.script.take() {
            Outcome::Pass => self.below.read(start, bytes),
            Outcome::Refuse => Err(Refusal::NotAcknowledged(Who::Wire, start)),
            Outcome::Break => Err(Refusal::Broken(start)),
            Outcome::DropReply => {
                // A reply that is dropped goes to bytes of its own.
                let mut reply = [0; LONGEST_READ];
                let _ = self.below.read(start, &mut reply[..length]);
                Err(Refusal::Broken(start))
            }
        }
    }

    fn write(&mut self, address: u8, bytes: &[u8]) -> Result<(), Refusal> {
        self.play(address, |below| below.write(address, bytes))
    }

    fn send(&mut self, command: u8) -> Result<(), Refusal> {
        self.play(command, |below| below.send(command))
    }
}
