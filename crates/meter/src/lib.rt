//! The meter over any wire: draws, bookings, write-offs, looks and bills.
#![tactic(auto)]

pub mod condition;
pub mod meter;
pub mod reading;
pub mod slip;
mod transfer;
