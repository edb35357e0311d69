//! Lines of text: a word, then decimal fields parted by commas.
#![tactic(auto)]

pub mod input;
pub mod line;
mod mark;
pub mod numbers;
pub mod token;
