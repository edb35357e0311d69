//! The slip of a draw. Whoever has one books it or writes it off.
ghost use Rattle.std.specs.Prelude.{◌≡◌, true, false};

use chip::refusal::Refusal;

/// It cannot be copied or made elsewhere, and its end asks that it is spent: only a booking or a write-off spends it.
pub struct Slip {
    meter: u32,
    draw: u32,
    spent: bool,
}

impl Drop for Slip {
    fn drop(self)
        requires { self.spent ≡ true }
    {
        let Slip {
            meter: _,
            draw: _,
            spent: _,
        } = self;
    }
}

/// A slip that was refused, given back, and why.
pub struct Unspent {
    pub slip: Slip,
    pub refusal: Refusal,
}

impl Slip {
    pub(crate) fn new(meter: u32, draw: u32) -> Slip
        ensures { result ≡ record { meter = meter; draw = draw; spent = false } }
    {
        Slip {
            meter,
            draw,
            spent: false,
        }
    }

    /// The number of the meter that handed it out.
    pub fn meter(&self) -> u32
        ensures { result ≡ self.now.meter }
    {
        self.meter
    }

    /// Its draw number.
    pub fn draw(&self) -> u32
        ensures { result ≡ self.now.draw }
    {
        self.draw
    }

    // Its end. Only a booking and a write-off call it.
    pub(crate) fn spend(mut self) {
        self.spent = true;
    }

    pub(crate) fn refused(self, refusal: Refusal) -> Unspent
        ensures { (result.slip ≡ self) × (result.refusal ≡ refusal) }
    {
        Unspent {
            slip: self,
            refusal,
        }
    }
}
