//! What is known of each kind of chip, from its data sheet alone.

use chip::make::Make;
use makes::pac193x::Pac193x;
use makes::pac194x::Pac194x;

#[derive(Clone, Copy)]
pub(crate) struct Kind {
    pub(crate) name: &'static str,
    // how many sense codes one step of a product is: the PAC193X does not use its lowest two bits
    pub(crate) sense_step: i16,
    // how many such steps a negative sense is larger by where it is read one-way
    pub(crate) sense_span: i32,
    // how many writes come before the REFRESH of a draw
    pub(crate) writes: u8,
    // where a sum register begins in eight bytes that end with it
    pub(crate) sum_start: usize,
    // what one step of a weighed sum is worth over a tenth of a milliohm, where 2^34 are a millijoule
    pub(crate) step_worth: i32,
}

// A make of a kind that is known here.
pub(crate) trait Known: Make + Drop {
    const KIND: Kind;
}

// Its sums have six bytes, and a step is worth 15625/2^27 millijoules.
impl Known for Pac193x {
    const KIND: Kind = Kind {
        name: "PAC193X",
        sense_step: 4,
        sense_span: 1 << 14,
        writes: 3,
        sum_start: 2,
        step_worth: 15_625 << 7,
    };
}

// Its sums have seven bytes.
impl Known for Pac194x {
    const KIND: Kind = Kind {
        name: "PAC194X",
        sense_step: 1,
        sense_span: 1 << 16,
        writes: 2,
        sum_start: 1,
        step_worth: 140_625,
    };
}

impl Kind {
    // What weighed sums are worth over a tenth of a milliohm, in millijoules rounded down.
    pub(crate) fn energy(self, weighed: i64) -> i128 {
        (i128::from(self.step_worth) * i128::from(weighed)).div_euclid(1 << 34)
    }
}
