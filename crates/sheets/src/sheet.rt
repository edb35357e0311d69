//! The equations of the makers' data sheets, each in the sheets' own form. None of our formulas is used here.

use super::case::{Case, Sense, Shunt};
use chip::make::Make;
use makes::pac193x::Pac193x;
use makes::pac194x::Pac194x;

// What the sheets divide by: less where the sense input is two-way.
#[derive(Clone, Copy)]
pub(crate) struct Denominator {
    one_way: f64,
    two_way: f64,
}

// 2^16 and 2^15, for codes.
const OF_CODES: Denominator = Denominator {
    one_way: 65536.0,
    two_way: 32768.0,
};

// The full scale of the sense input, in millivolts.
const SENSE_SCALE: f64 = 100.0;

// What differs between the sheets.
#[derive(Clone, Copy)]
pub(crate) struct DataSheet {
    pub(crate) make: &'static str,
    // the full scale of the bus input, in volts
    bus_scale: f64,
    // what powers and sums of powers are divided by
    of_powers: Denominator,
    // what one step of a power is in the 32 bits of its register, whose lowest bits are not used
    register_step: f64,
}

// A make that there is a data sheet of.
pub(crate) trait Sheeted: Make + Drop {
    const SHEET: DataSheet;
}

// 2^28 and 2^27, and 28 bits of 32.
impl Sheeted for Pac193x {
    const SHEET: DataSheet = DataSheet {
        make: "PAC193X",
        bus_scale: 32.0,
        of_powers: Denominator {
            one_way: 268435456.0,
            two_way: 134217728.0,
        },
        register_step: 16.0,
    };
}

// 2^30 and 2^29, and 30 bits of 32.
impl Sheeted for Pac194x {
    const SHEET: DataSheet = DataSheet {
        make: "PAC194X",
        bus_scale: 9.0,
        of_powers: Denominator {
            one_way: 1073741824.0,
            two_way: 536870912.0,
        },
        register_step: 4.0,
    };
}

impl Denominator {
    fn at(self, sense: Sense) -> f64 {
        match sense {
            Sense::OneWay(_) => self.one_way,
            Sense::TwoWay(_) => self.two_way,
        }
    }
}

// Full-scale current = 100 mV / shunt.
fn full_scale_current(shunt: Shunt) -> f64 {
    SENSE_SCALE / shunt.milliohms()
}

impl DataSheet {
    // Bus voltage = full scale * code / denominator. The bus input is one-way here.
    pub(crate) fn bus_voltage(self, code: u16) -> f64 {
        self.bus_scale * (f64::from(code) / OF_CODES.one_way)
    }

    // Sense voltage = full scale * code / denominator, in millivolts.
    pub(crate) fn sense_voltage(self, sense: Sense) -> f64 {
        SENSE_SCALE * (sense.value() / OF_CODES.at(sense))
    }

    // Current = full-scale current * code / denominator.
    pub(crate) fn current(self, sense: Sense, shunt: Shunt) -> f64 {
        full_scale_current(shunt) * (sense.value() / OF_CODES.at(sense))
    }

    // Full-scale power = (100 mV / shunt) * full-scale bus voltage.
    fn full_scale_power(self, shunt: Shunt) -> f64 {
        full_scale_current(shunt) * self.bus_scale
    }

    // Voltage times current, as the equations above have them.
    pub(crate) fn power(self, case: &Case) -> f64 {
        self.bus_voltage(case.bus) * self.current(case.sense, case.shunt)
    }

    // Proportional power = power number / denominator, and power = full-scale power * proportional power, solved for the number.
    pub(crate) fn power_number(self, case: &Case) -> f64 {
        let proportional = self.power(case) / self.full_scale_power(case.shunt);
        proportional * self.of_powers.at(case.sense)
    }

    // The same two equations forward, from a power number.
    pub(crate) fn power_of(self, number: f64, case: &Case) -> f64 {
        let proportional = number / self.of_powers.at(case.sense);
        self.full_scale_power(case.shunt) * proportional
    }

    // The power number in the 32 bits of a power register.
    pub(crate) fn in_register(self, sense: Sense, register: u32) -> f64 {
        let value = match sense {
            Sense::OneWay(_) => f64::from(register),
            Sense::TwoWay(_) => f64::from(register.cast_signed()),
        };
        value / self.register_step
    }

    // Energy = accumulated power numbers / denominator * full-scale power / rate, in millijoules.
    pub(crate) fn energy(self, case: &Case) -> f64 {
        let accumulated = f64::from(case.cycles) * self.power_number(case);
        let joules = accumulated / self.of_powers.at(case.sense)
            * (self.full_scale_power(case.shunt) / f64::from(case.rate.per_second));
        joules * 1000.0
    }
}
