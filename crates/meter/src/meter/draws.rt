//! Drawing: the settings' writes, REFRESH, and the slip.
ghost use Rattle.std.specs.Prelude.{◌≡◌, ◌+◌, ◌-◌, ◌^◌, ◌<◌, IfOk};
ghost use Rattle.account.specs.Calls.{Followed};
ghost use Rattle.account.specs.Dialogue.{draw, drew, asks_mark, closes, refreshes};
ghost use Rattle.meter.specs.Promises.{MadeAlone};
ghost use Rattle.meter.specs.Views.{draw_answer, meter_of, slip_of, IsUnspent};

use super::Meter;
use super::machine::{Call, Move};
use crate::condition::Condition;
use crate::slip::Slip;
use crate::transfer;
use chip::make::Make;
use chip::refusal::Refusal;
use wire::wire::Wire;

impl<W: Wire> Meter<W> {
    /// Closes a stretch and hands out its slip, unspent. In doubt it asks the chip first whether the last REFRESH was carried out.
    pub fn draw(&mut self) -> Result<Slip, Refusal>
        ensures made { MadeAlone W.Make.Make.sheet W.Wire.chip W.Wire.goes draw (meter_of self.old)
            self.old.wire (meter_of self.new) self.new.wire (draw_answer result) }
        ensures unspent { IfOk result IsUnspent }
    {
        let way = self.settle(Call::Draw)?;
        if self.last == u32::MAX {
            return Err(Refusal::NumbersSpent);
        }
        match way {
            Move::AskMark => self.draw_in_doubt(),
            _ => self.refresh(),
        }
    }

    // A mark in force unlike the meter's says that the REFRESH was carried out; else all is done again.
    fn draw_in_doubt(&mut self) -> Result<Slip, Refusal>
        requires { self.old.last < 2 ^ 32 - 1 }
        ensures followed { self.old.condition ≡ Condition.InDoubt → Followed W.Wire.goes
            (asks_mark W.Make.Make.sheet (meter_of self.old)) self.old.wire
            (meter_of self.new) self.new.wire (draw_answer result) }
        ensures unspent { IfOk result IsUnspent }
    {
        let number = transfer::read_number(&mut self.wire, W::Make::constants().mark)?;
        if W::Make::mark_in(number) != self.mark {
            return Ok(self.hand_out());
        }
        self.refresh()
    }

    // The wanted settings with the opposite mark, then REFRESH.
    fn refresh(&mut self) -> Result<Slip, Refusal>
        requires { self.old.last < 2 ^ 32 - 1 }
        ensures followed { Followed W.Wire.goes (refreshes W.Make.Make.sheet (meter_of self.old))
            self.old.wire (meter_of self.new) self.new.wire (draw_answer result) }
        ensures unspent { IfOk result IsUnspent }
    {
        match transfer::write_settings(&mut self.wire, self.wanted, !self.mark) {
            Ok(()) => self.close(),
            Err(refusal) => {
                self.condition = Condition::Unfinished;
                Err(refusal)
            }
        }
    }

    // REFRESH.
    fn close(&mut self) -> Result<Slip, Refusal>
        requires { self.old.last < 2 ^ 32 - 1 }
        ensures followed { Followed W.Wire.goes (closes W.Make.Make.sheet (meter_of self.old))
            self.old.wire (meter_of self.new) self.new.wire (draw_answer result) }
        ensures unspent { IfOk result IsUnspent }
    {
        match self.wire.send(W::Make::constants().refresh) {
            Ok(()) => Ok(self.hand_out()),
            Err(refusal) => {
                self.condition = Condition::after_failed_refresh(refusal);
                Err(refusal)
            }
        }
    }

    // The mark turns, the draw number rises, the slip is out.
    fn hand_out(&mut self) -> Slip
        requires { self.old.last < 2 ^ 32 - 1 }
        ensures slip { slip_of result
            ≡ record { meter = self.old.number; draw = self.old.last + 1 } }
        ensures after { meter_of self.new ≡ drew (meter_of self.old) }
        ensures wire { self.new.wire ≡ self.old.wire }
        ensures unspent { IsUnspent result }
    {
        let draw = self.last + 1;
        self.last = draw;
        self.mark = !self.mark;
        self.condition = Condition::SlipOut(draw);
        Slip::new(self.number, draw)
    }
}
