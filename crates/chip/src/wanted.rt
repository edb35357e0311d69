//! Settings as a user wants them. The struct stands alone in this file, since its ghost fields import whatever the file imports.
ghost use Rattle.std.specs.Prelude.{◌≤◌};

mod limits;

/// A rate code, an off mask and a two-way mask within the limits that all makes share.
#[derive(Clone, Copy, Debug, PartialEq, Eq)]
pub struct Wanted {
    /// 0 to 3 are 1024, 256, 64 and 8 cycles a second
    pub rate: u8,
    /// the channels that are off: bit 3 is channel 1, bit 0 channel 4
    pub off: u8,
    /// those that are two-way, in the same bits
    pub two_way: u8,
    ghost rates: { rate ≤ 3 },
    ghost off_masks: { off ≤ 15 },
    ghost two_way_masks: { two_way ≤ 15 },
}
