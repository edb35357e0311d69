//! The makes PAC193X and PAC194X.
#![tactic(auto)]

pub mod pac193x;
pub mod pac194x;
mod table;
pub mod theorems;
