//! A book of entries over lent places, and its bill.
#![tactic(auto)]

pub mod bill;
pub mod book;
mod ranges;
pub mod theorems;
