//! The end of a desk, and the wire given back.
ghost use Rattle.std.specs.Prelude.{◌≡◌, ◌≢◌, None, MatchResult, true};
ghost use Rattle.chip.specs.declared.refusal.Refusal.TheVariants.{SlipOut};
ghost use Rattle.desk.specs.Hand.{fits_in_hand};
ghost use Rattle.desk.specs.Promises.{Ended};
ghost use Rattle.desk.specs.Standing.{draw_of, hand_of};
ghost use Rattle.meter.specs.Views.{meter_of};

use super::Desk;
use book::book::Book;
use chip::refusal::Refusal;
use meter::meter::Meter;
use meter::slip::Slip;
use wire::scripted::Scripted;
use wire::wire::Wire;

/// A desk that was not released, kept whole, and why.
pub struct Unreleased<'a, W> {
    pub desk: Desk<'a, W>,
    pub refusal: Refusal,
}

impl<'a, W> Desk<'a, W> {
    /// The draw number of the slip in hand.
    pub fn slip_in_hand(&self) -> Option<u32>
        ensures { result ≡ draw_of (hand_of self.now.slip) }
    {
        self.slip.as_ref().map(|slip| slip.draw())
    }

    /// Whether the desk can be released: not with a slip in hand.
    pub fn may_release(&self) -> Result<(), Refusal>
        ensures { MatchResult result (λ _. self.now.slip ≡ None) (λ e. (self.now.slip ≢ None) × (e ≡ SlipOut)) }
    {
        if self.slip.is_some() {
            return Err(Refusal::SlipOut);
        }
        Ok(())
    }

    /// Gives the wire and the book back. With a slip in hand it is refused, and the desk kept as it was.
    pub fn release(self) -> Result<(Scripted<W>, Book<'a>), Unreleased<'a, W>>
        ensures { MatchResult result (λ r. (self.entry.slip ≡ None) × (r.0 ≡ self.entry.meter.wire) × (r.1 ≡ self.entry.book)) (λ u. (self.entry.slip ≢ None) × (u.desk ≡ self.entry) × (u.refusal ≡ SlipOut)) }
    {
        if let Err(refusal) = self.may_release() {
            return Err(Unreleased {
                desk: self,
                refusal,
            });
        }
        let Desk {
            meter,
            book,
            scratch: _,
            slip: _,
        } = self;
        Ok((meter.release(), book))
    }
}

impl<'a, W: Wire> Desk<'a, W> {
    /// Gives the wire and the book back. A slip in hand is written off first.
    pub fn end(self) -> (Scripted<W>, Book<'a>)
        ensures written_off { Ended W.Make.Make.sheet W.Wire.chip W.Wire.goes (hand_of self.entry.slip) (meter_of self.entry.meter) self.entry.meter.wire result.0 }
        ensures wire { result.0 ≡ self.entry.meter.wire }
        ensures book { result.1 ≡ self.entry.book }
    {
        let Desk {
            mut meter,
            book,
            scratch: _,
            slip,
        } = self;
        give_up(&mut meter, slip);
        (meter.release(), book)
    }
}

// Writes the meter's open slip off, if it is in hand.
fn give_up<W: Wire>(meter: &mut Meter<Scripted<W>>, slip: Option<Slip>)
    requires { fits_in_hand meter.old slip ≡ true }
    ensures written_off { Ended W.Make.Make.sheet W.Wire.chip W.Wire.goes (hand_of slip) (meter_of meter.old) meter.old.wire meter.new.wire }
    ensures wire { meter.new.wire ≡ meter.old.wire }
{
    if let Some(slip) = slip {
        match meter.write_off(slip) {
            Ok(()) => {}
            Err(_) => unreachable!(),
        }
    }
}
