//! What a person at the meter holds.
#![tactic(auto)]

pub mod desk;
