//! What a look answers.
ghost use Rattle.std.specs.Prelude.{◌≡◌, cond, pos};
ghost use Rattle.chip.specs.Registers.{value_of};
ghost use Rattle.meter.specs.Readings.{scaled};

use chip::register;

/// A voltage of the latest codes: at the bus, or over the shunt.
#[derive(Clone, Copy)]
pub enum Reading {
    Volts(f64),
    Millivolts(f64),
}

// A code's steps from 0 to the full scale; a two-way code has half of them on each side.
const STEPS: u32 = 65536;

// The full scale of a sense code, in millivolts.
const SENSE_SCALE: u32 = 100;

impl Reading {
    // A bus code, of a full scale in volts.
    pub(crate) fn of_bus(code: u16, full_scale: u8) -> Reading
        ensures { result ≡ Reading.Volts (scaled (pos code) full_scale 65536) }
    {
        Reading::Volts(f64::from(code) * f64::from(full_scale) / f64::from(STEPS))
    }

    // A sense code, one-way or in two's complement.
    pub(crate) fn of_sense(code: u16, two_way: bool) -> Reading
        ensures { result ≡ Reading.Millivolts (scaled (value_of 16 two_way code) 100 (cond two_way 32768 65536)) }
    {
        let value = register::sense_value(two_way, code);
        let steps = if two_way { STEPS / 2 } else { STEPS };
        Reading::Millivolts(f64::from(value) * f64::from(SENSE_SCALE) / f64::from(steps))
    }
}
