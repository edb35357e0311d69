//! A check: a figure of the data sheets beside ours, and whether they agree.

use super::case::Case;
use std::{fmt, io};

// What a figure may differ by where a division is not exact, as a part of it: a few of the last bits.
const TOLERANCE: f64 = 1e-14;

// What a figure is of.
#[derive(Clone, Copy)]
pub(crate) struct Quantity {
    name: &'static str,
    unit: &'static str,
    closeness: Closeness,
}

// How close ours is to the sheet's.
#[derive(Clone, Copy)]
enum Closeness {
    Exact,
    // where a division is not exact
    LastBits,
    RoundedDown,
}

pub(crate) const BUS_VOLTAGE: Quantity = Quantity {
    name: "bus voltage",
    unit: "V",
    closeness: Closeness::Exact,
};

pub(crate) const SENSE_VOLTAGE: Quantity = Quantity {
    name: "sense voltage",
    unit: "mV",
    closeness: Closeness::Exact,
};

pub(crate) const CURRENT: Quantity = Quantity {
    name: "current",
    unit: "A",
    closeness: Closeness::LastBits,
};

pub(crate) const POWER_NUMBER: Quantity = Quantity {
    name: "power number",
    unit: "",
    closeness: Closeness::Exact,
};

pub(crate) const POWER: Quantity = Quantity {
    name: "power",
    unit: "W",
    closeness: Closeness::Exact,
};

pub(crate) const ENERGY: Quantity = Quantity {
    name: "energy",
    unit: "mJ",
    closeness: Closeness::RoundedDown,
};

// A line of the table.
#[derive(Clone, Copy)]
pub(crate) struct Check {
    pub(crate) make: &'static str,
    pub(crate) case: Case,
    pub(crate) quantity: Quantity,
    pub(crate) sheet: f64,
    pub(crate) ours: f64,
}

// Over the columns of the table.
pub(crate) const HEAD: &str =
    "make     figure          bus   sense          cycles  rate  mOhm             data sheet                      ours";

impl Check {
    fn agrees(&self) -> bool {
        match self.quantity.closeness {
            Closeness::Exact => self.sheet == self.ours,
            Closeness::LastBits => (self.sheet - self.ours).abs() <= TOLERANCE * self.sheet.abs(),
            Closeness::RoundedDown => self.sheet.floor() == self.ours,
        }
    }
}

pub(crate) fn verdict(agrees: bool) -> &'static str {
    if agrees { "ok" } else { "DIFFERS" }
}

impl fmt::Display for Check {
    fn fmt<W: fmt::Write>(&self, f: &mut fmt::Formatter<W>) -> fmt::Result {
        let case = &self.case;
        let Quantity { name, unit, .. } = self.quantity;
        write!(f, "{}  {name:<13} ", self.make)?;
        write!(
            f,
            "{:>5}  {:>6} {}",
            case.bus,
            case.sense.value(),
            case.sense.way()
        )?;
        write!(f, "  {:>6}  {:>4}", case.cycles, case.rate.per_second)?;
        write!(f, "  {:>4}", case.shunt.milliohms())?;
        write!(f, "  {:>21} {unit:<2}", self.sheet)?;
        write!(f, "  {:>21} {unit:<2}", self.ours)?;
        write!(f, "  {}", verdict(self.agrees()))
    }
}

// How many checks there were, and how many of them differ.
#[derive(Clone, Copy, Default)]
pub(crate) struct Tally {
    pub(crate) checks: u32,
    pub(crate) differing: u32,
}

impl Tally {
    pub(crate) fn count(&mut self, agrees: bool) {
        self.checks = self.checks.saturating_add(1);
        if !agrees {
            self.differing = self.differing.saturating_add(1);
        }
    }

    // Counts a check and prints its line.
    pub(crate) fn show(&mut self, rt: &impl Print, check: Check) -> io::Result<()> {
        self.count(check.agrees());
        rt.println(check)
    }
}
