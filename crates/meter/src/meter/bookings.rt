//! Spending a slip: booking it or writing it off; and the bill of a meter's book.
ghost use Rattle.std.specs.Prelude.{◌≡◌, ◌+◌, ◌≤◌, true, length};
ghost use Rattle.account.specs.Calls.{MadeBookCall};
ghost use Rattle.account.specs.Dialogue.{book as booking, write_off, fits_slip};
ghost use Rattle.book.specs.Book.{pages};
ghost use Rattle.meter.specs.Promises.{EntryFor, MadeAlone, MadeBill};
ghost use Rattle.meter.specs.Views.{book_answer, meter_of, slip_of, write_off_answer, GivesBack};

use super::Meter;
use super::machine::Call;
use crate::condition::Condition;
use crate::slip::{Slip, Unspent};
use crate::transfer;
use book::bill::Bill;
use book::book::Book;
use chip::entry::Entry;
use chip::make::Make;
use chip::refusal::Refusal;
use wire::wire::Wire;

// A booking asks for a scratch of so many bytes at least: no read of a make brings more at once.
const LEAST_SCRATCH: usize = 32;

// All replies to a booking's reads fit so many bytes, by the laws of a make.
const MOST_REPLIES: usize = 64;

impl<W: Wire> Meter<W> {
    // Whether a slip is the open one.
    fn takes(&self, slip: &Slip) -> bool
        ensures fits { result ≡ fits_slip (meter_of self.now) (slip_of slip.now) }
        ensures room { result ≡ true → self.now.write_offs + 1 ≤ self.now.last }
    {
        slip.meter() == self.number && self.settle(Call::Spend(slip.draw())).is_ok()
    }

    /// Gives the stretch that waits its entry, at the next free place of the book. Refused, it gives the slip back, as unspent as it was.
    pub fn book(
        &mut self,
        slip: Slip,
        book: &mut Book<'_>,
        scratch: &mut [u8],
    ) -> Result<Entry, Unspent>
        ensures made { MadeBookCall W.Make.Make.sheet W.Wire.chip W.Wire.goes
            (booking (slip_of slip) (length scratch.old))
            (meter_of self.old) self.old.wire (pages book.old) scratch.old
            (meter_of self.new) self.new.wire (pages book.new) scratch.new (book_answer result) }
        ensures back { GivesBack slip result }
        ensures same { book.new.places.ghost_name ≡ book.old.places.ghost_name }
    {
        match self.entry_for(&slip, book, scratch) {
            Ok(entry) => {
                // A place is free: `entry_for` refuses a full book.
                let _ = book.put(entry);
                slip.spend();
                self.condition = Condition::Ready;
                Ok(entry)
            }
            Err(refusal) => Err(slip.refused(refusal)),
        }
    }

    // All of a booking that can be refused: its tests, its reads, and the entry in their replies.
    fn entry_for(
        &mut self,
        slip: &Slip,
        book: &Book<'_>,
        scratch: &mut [u8],
    ) -> Result<Entry, Refusal>
        ensures found { EntryFor W.Make.Make.sheet W.Wire.chip W.Wire.goes (slip_of slip.now) (meter_of self.old) self.old.wire (pages book.now) scratch.old self.new.wire scratch.new result }
        ensures meter { meter_of self.new ≡ meter_of self.old }
    {
        if !book.within_limits() || scratch.len() < LEAST_SCRATCH {
            return Err(Refusal::Limits);
        }
        if !self.takes(slip) {
            return Err(Refusal::WrongSlip);
        }
        if book.is_full() {
            return Err(Refusal::Full);
        }
        let mut replies = [0; MOST_REPLIES];
        let count = transfer::gather(&mut self.wire, scratch, &mut replies)?;
        Ok(W::Make::entry_in(&replies[..count], slip.draw()))
    }

    /// Gives the stretch that waits up, and counts one. Refused, it gives the slip back, as unspent as it was.
    pub fn write_off(&mut self, slip: Slip) -> Result<(), Unspent>
        ensures made { MadeAlone W.Make.Make.sheet W.Wire.chip W.Wire.goes
            (write_off (slip_of slip)) (meter_of self.old) self.old.wire
            (meter_of self.new) self.new.wire (write_off_answer result) }
        ensures back { GivesBack slip result }
    {
        if !self.takes(&slip) {
            return Err(slip.refused(Refusal::WrongSlip));
        }
        slip.spend();
        self.write_offs += 1;
        self.condition = Condition::Ready;
        Ok(())
    }

    /// The bill of a book, by the tariff of the meter's own make: a channel (1 on) over a shunt in tenths of a milliohm. It sends nothing.
    pub fn bill(&self, book: &Book<'_>, channel: u8, shunt: u16) -> Result<Bill, Refusal>
        ensures { MadeBill W.Make.Make.sheet W.Wire.chip W.Wire.goes channel shunt (meter_of self.now) self.now.wire (pages book.now) result }
    {
        book.bill::<W::Make>(channel, shunt)
    }
}
