//! What a make of power monitor is, and one chip over any make.
#![tactic(auto)]

pub mod chip;
pub mod cursor;
pub mod driver;
pub mod entry;
pub mod make;
pub mod refusal;
pub mod register;
pub mod state;
pub mod theorems;
pub mod wanted;
