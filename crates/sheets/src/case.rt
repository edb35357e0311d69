//! What a check is made of: codes, how many cycles at which rate, and a shunt.

use chip::state::Codes;

// A sense code, in one of the two forms that a channel can be set to.
#[derive(Clone, Copy)]
pub(crate) enum Sense {
    OneWay(u16),
    TwoWay(i16),
}

impl Sense {
    // As the chip converts it.
    pub(crate) fn code(self) -> u16 {
        match self {
            Sense::OneWay(code) => code,
            Sense::TwoWay(code) => code.cast_unsigned(),
        }
    }

    pub(crate) fn value(self) -> f64 {
        match self {
            Sense::OneWay(code) => f64::from(code),
            Sense::TwoWay(code) => f64::from(code),
        }
    }

    // The two-way mask that channel 1 is to have.
    pub(crate) fn mask(self) -> u8 {
        match self {
            Sense::OneWay(_) => 0,
            Sense::TwoWay(_) => 8,
        }
    }

    pub(crate) fn way(self) -> &'static str {
        match self {
            Sense::OneWay(_) => "one-way",
            Sense::TwoWay(_) => "two-way",
        }
    }
}

// As a set-up takes it, and in cycles.
#[derive(Clone, Copy)]
pub(crate) struct Rate {
    pub(crate) code: u8,
    pub(crate) per_second: u16,
}

// The highest one first.
pub(crate) const RATES: [Rate; 4] = [
    Rate {
        code: 0,
        per_second: 1024,
    },
    Rate {
        code: 1,
        per_second: 256,
    },
    Rate {
        code: 2,
        per_second: 64,
    },
    Rate {
        code: 3,
        per_second: 8,
    },
];

// A resistance in tenths of a milliohm.
#[derive(Clone, Copy)]
pub(crate) struct Shunt(pub(crate) u16);

impl Shunt {
    pub(crate) const TEN_MILLIOHMS: Shunt = Shunt(100);

    pub(crate) const THREE_TENTHS: Shunt = Shunt(3);

    pub(crate) const ONE_TENTH: Shunt = Shunt(1);

    pub(crate) fn milliohms(self) -> f64 {
        f64::from(self.0) / 10.0
    }
}

// So many cycles of the same codes on channel 1.
#[derive(Clone, Copy)]
pub(crate) struct Case {
    pub(crate) bus: u16,
    pub(crate) sense: Sense,
    pub(crate) cycles: u16,
    pub(crate) rate: Rate,
    pub(crate) shunt: Shunt,
}

impl Case {
    // One cycle at the highest rate.
    pub(crate) fn single(bus: u16, sense: Sense, shunt: Shunt) -> Case {
        Case {
            bus,
            sense,
            cycles: 1,
            rate: RATES[0],
            shunt,
        }
    }

    // One of its cycles. The other channels have nothing.
    pub(crate) fn codes(&self) -> [Codes; 4] {
        let busy = Codes {
            bus: self.bus,
            sense: self.sense.code(),
        };
        let idle = Codes { bus: 0, sense: 0 };
        [busy, idle, idle, idle]
    }
}
