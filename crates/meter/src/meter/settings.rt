//! Making a meter, its cycles, its set-up, and what it shows of itself.
ghost use Rattle.std.specs.Prelude.{◌≡◌, true};
ghost use Rattle.account.specs.Calls.{Added, Begun, MadeCycle};
ghost use Rattle.account.specs.Dialogue.{set_up};
ghost use Rattle.meter.specs.Promises.{MadeAlone};
ghost use Rattle.meter.specs.Views.{meter_of, set_up_answer};
ghost use Rattle.wire.specs.Scripted.{seen};
ghost use Rattle.wire.specs.Scripts.{added_to};

use super::Meter;
use crate::condition::Condition;
use chip::make::Make;
use chip::refusal::Refusal;
use chip::state::Codes;
use chip::wanted::Wanted;
use wire::scripted::Scripted;
use wire::wire::Wire;

const AT_FIRST: Wanted = Wanted {
    rate: 0,
    off: 0,
    two_way: 0,
};

impl<W: Wire> Meter<W> {
    /// A meter of a wire, with its number and the last draw number used; nothing is sent. On a wire to a fresh chip it begins a run.
    pub fn new(wire: W, number: u32, last: u32) -> Meter<W>
        ensures { Begun W.Make.Make.sheet W.Wire.chip number last wire (meter_of result) result.wire }
    {
        Meter {
            wire,
            number,
            last,
            wanted: AT_FIRST,
            mark: false,
            write_offs: 0,
            condition: Condition::Ready,
        }
    }

    /// Passes a conversion cycle on.
    pub fn cycle(&mut self, codes: [Codes; 4])
        ensures { MadeCycle W.Make.Make.sheet W.Wire.chip W.Wire.passes codes (meter_of self.old) self.old.wire (meter_of self.new) self.new.wire }
    {
        self.wire.cycle(codes);
    }

    /// Stores the settings that the next REFRESH is to put in force.
    pub fn set_up(&mut self, rate: u8, off: u8, two_way: u8) -> Result<(), Refusal>
        ensures { MadeAlone W.Make.Make.sheet W.Wire.chip W.Wire.goes (set_up (record { rate = rate; off = off; two_way = two_way })) (meter_of self.old) self.old.wire (meter_of self.new) self.new.wire (set_up_answer result) }
    {
        let wanted = Wanted::new(rate, off, two_way)?;
        if !W::Make::offers(wanted) {
            return Err(Refusal::Limits);
        }
        self.wanted = wanted;
        Ok(())
    }
}

impl<W: Wire> Meter<Scripted<W>> {
    /// Adds an outcome to the script of the meter's wire: 0 to 3, and 256 in all.
    pub fn add(&mut self, outcome: u8) -> Result<(), Refusal>
        ensures run { Added W.Make.Make.sheet (λ s. W.Wire.chip s.below) (meter_of self.old) self.old.wire (meter_of self.new) self.new.wire }
        ensures below { self.new.wire.below ≡ self.old.wire.below }
        ensures added { added_to self.old.wire.script outcome result self.new.wire.script }
    {
        self.wire.add(outcome)
    }
}

impl<W> Meter<W> {
    /// Gives the wire back. The meter's account ends here.
    pub fn release(self) -> W
        ensures { result ≡ self.wire }
    {
        let Meter {
            wire,
            number: _,
            last: _,
            wanted: _,
            mark: _,
            write_offs: _,
            condition: _,
        } = self;
        wire
    }

    /// Where it stands between calls.
    pub fn condition(&self) -> Condition
        ensures { result ≡ self.now.condition }
    {
        self.condition
    }

    /// The mark of the settings in force, as the meter knows it.
    pub fn mark(&self) -> bool
        ensures { result ≡ self.now.mark }
    {
        self.mark
    }

    /// The last draw number used.
    pub fn last(&self) -> u32
        ensures { result ≡ self.now.last }
    {
        self.last
    }

    /// How many stretches it wrote off.
    pub fn write_offs(&self) -> u32
        ensures { result ≡ self.now.write_offs }
    {
        self.write_offs
    }
}
