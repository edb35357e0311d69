//! Wires to a chip: what every wire means, the direct wire, and the scripted wire over any wire.
#![tactic(auto)]

pub mod direct;
pub mod outcome;
pub mod script;
pub mod scripted;
pub mod theorems;
pub mod wire;
