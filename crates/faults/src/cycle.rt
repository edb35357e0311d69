//! Cycles that tell themselves apart: each has codes by its own number.

use super::kind::Kind;
use super::settings::{self, Settings};
use chip::state::Codes;

// How many cycles have a power of two of their own, on a two-way channel too.
pub(crate) const MOST_CYCLES: u8 = 26;

// The largest power of two that one factor of channel 1 gives: a bus has 14 bits in a product.
const MOST_BY_ONE: u8 = 13;

// A cycle by its number, from 0 on.
#[derive(Clone, Copy)]
pub(crate) struct Cycle(pub(crate) u8);

// The factors of a product: bus and sense, each in the steps that the product has.
#[derive(Clone, Copy)]
struct Factors {
    bus: u16,
    sense: i16,
}

impl Cycle {
    // Channel 1 has 2^n in cycle n. Channel 3 has negative codes, and the others are only unlike. Channels count from 0.
    fn factors(self, channel: usize) -> Factors {
        let number = self.0;
        let by_bus = number.min(MOST_BY_ONE);
        let by_sense = number.saturating_sub(MOST_BY_ONE).min(MOST_BY_ONE);
        match channel {
            0 => Factors {
                bus: 1 << by_bus,
                sense: 1 << by_sense,
            },
            1 => Factors {
                bus: 7 + u16::from(number),
                sense: 3,
            },
            2 => Factors {
                bus: 100,
                sense: -1 - i16::from(number),
            },
            _ => Factors {
                bus: 11,
                sense: 40 + i16::from(number),
            },
        }
    }

    fn codes(self, kind: Kind, channel: usize) -> Codes {
        let Factors { bus, sense } = self.factors(channel);
        Codes {
            bus: bus.wrapping_mul(4),
            sense: sense.wrapping_mul(kind.sense_step).cast_unsigned(),
        }
    }

    pub(crate) fn all_codes(self, kind: Kind) -> [Codes; 4] {
        [
            self.codes(kind, 0),
            self.codes(kind, 1),
            self.codes(kind, 2),
            self.codes(kind, 3),
        ]
    }

    // What it adds to a channel's sum.
    pub(crate) fn product(self, kind: Kind, settings: Settings, channel: usize) -> i64 {
        let Factors { bus, sense } = self.factors(channel);
        if settings::is_in(settings.off, channel) {
            return 0;
        }
        let mut steps = i64::from(sense);
        if sense < 0 && !settings::is_in(settings.two_way, channel) {
            steps += i64::from(kind.sense_span);
        }
        i64::from(bus).saturating_mul(steps)
    }

    // What a look at the sense of channel 3 is to answer, by the data sheet.
    pub(crate) fn millivolts(self, kind: Kind, settings: Settings) -> f64 {
        let code = self.codes(kind, 2).sense;
        if settings::is_in(settings.two_way, 2) {
            100.0 * (f64::from(code.cast_signed()) / 32768.0)
        } else {
            100.0 * (f64::from(code) / 65536.0)
        }
    }
}
