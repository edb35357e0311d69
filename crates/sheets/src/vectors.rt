//! The codes that are tried.

use super::case::{Sense, Shunt};

// Bus and sense codes to look at.
pub(crate) const LOOKS: [(u16, Sense); 8] = [
    (1, Sense::OneWay(1)),
    (32768, Sense::OneWay(16384)),
    (40000, Sense::OneWay(20000)),
    (65535, Sense::OneWay(65535)),
    (12345, Sense::TwoWay(20000)),
    (32767, Sense::TwoWay(-20000)),
    (54321, Sense::TwoWay(-32768)),
    (65534, Sense::TwoWay(-1)),
];

// Codes whose product is exact in both makes: multiples of four.
pub(crate) const POWERS: [(u16, Sense); 7] = [
    (32768, Sense::OneWay(16384)),
    (40000, Sense::OneWay(20000)),
    (65532, Sense::OneWay(65532)),
    (40000, Sense::TwoWay(20000)),
    (40000, Sense::TwoWay(-20000)),
    (65532, Sense::TwoWay(-32768)),
    (4096, Sense::TwoWay(-4)),
];

// Such codes, in how many cycles, over which shunt.
pub(crate) const ENERGIES: [(u16, Sense, u16, Shunt); 5] = [
    (32768, Sense::OneWay(16384), 1, Shunt::ONE_TENTH),
    (32768, Sense::TwoWay(16384), 1, Shunt::ONE_TENTH),
    (40000, Sense::OneWay(20000), 100, Shunt::TEN_MILLIOHMS),
    (40000, Sense::TwoWay(-20000), 100, Shunt::TEN_MILLIOHMS),
    (65532, Sense::TwoWay(-400), 1, Shunt::TEN_MILLIOHMS),
];
