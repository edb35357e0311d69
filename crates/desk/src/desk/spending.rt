//! Spending the slip in hand, and the bill.
ghost use Rattle.std.specs.Prelude.{◌≡◌};
ghost use Rattle.book.specs.Book.{pages};
ghost use Rattle.desk.specs.Promises.{BookMade, WriteOffMade, chip_below, goes_scripted};
ghost use Rattle.desk.specs.Standing.{hand_of, standing};
ghost use Rattle.meter.specs.Promises.{MadeBill};
ghost use Rattle.meter.specs.Views.{meter_of};

use super::Desk;
use book::bill::Bill;
use chip::entry::Entry;
use chip::refusal::Refusal;
use meter::slip::Unspent;
use wire::wire::Wire;

impl<W: Wire> Desk<'_, W> {
    /// Books the slip in hand. Refused, it stays there.
    pub fn book(&mut self) -> Result<Entry, Refusal>
        ensures made { BookMade W.Make.Make.sheet W.Wire.chip W.Wire.goes (hand_of self.old.slip) (standing self.old) result (standing self.new) }
        ensures same { self.new.book.places.ghost_name ≡ self.old.book.places.ghost_name }
    {
        let slip = self.slip.take().ok_or(Refusal::NoSlip)?;
        match self.meter.book(slip, &mut self.book, &mut self.scratch) {
            Ok(entry) => Ok(entry),
            Err(Unspent { slip, refusal }) => {
                self.slip = Some(slip);
                Err(refusal)
            }
        }
    }

    /// Writes the slip in hand off, which nothing refuses.
    pub fn write_off(&mut self) -> Result<(), Refusal>
        ensures made { WriteOffMade W.Make.Make.sheet W.Wire.chip W.Wire.goes (hand_of self.old.slip) (standing self.old) result (standing self.new) }
        ensures same { self.new.book.places.ghost_name ≡ self.old.book.places.ghost_name }
    {
        let open = self.slip.take().ok_or(Refusal::NoSlip)?;
        match self.meter.write_off(open) {
            Ok(()) => Ok(()),
            // The slip in hand is the meter's open one.
            Err(_) => unreachable!(),
        }
    }

    /// The bill of the book: a channel (1 on) over a shunt in tenths of a milliohm. It sends nothing, and all stays.
    pub fn bill(&self, channel: u8, shunt: u16) -> Result<Bill, Refusal>
        ensures { MadeBill W.Make.Make.sheet (chip_below W.Wire.chip) (goes_scripted W.Wire.goes) channel shunt (meter_of self.now.meter) self.now.meter.wire (pages self.now.book) result }
    {
        self.meter.bill(&self.book, channel, shunt)
    }
}
