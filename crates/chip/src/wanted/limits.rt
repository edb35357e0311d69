//! The limits of wanted settings.
ghost use Rattle.std.specs.Prelude.{◌≡◌};
ghost use Rattle.chip.specs.Driver.{wanted_from, seen_of};

use super::Wanted;
use crate::refusal::Refusal;

impl Wanted {
    /// Rate codes are 0 to 3, masks 0 to 15; anything else is refused.
    pub fn new(rate: u8, off: u8, two_way: u8) -> Result<Wanted, Refusal>
        ensures { seen_of result ≡ wanted_from rate off two_way }
    {
        if rate > 3 || off > 15 || two_way > 15 {
            return Err(Refusal::Limits);
        }
        Ok(Wanted { rate, off, two_way })
    }
}
