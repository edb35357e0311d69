//! Both chips.
mod cycles;
mod known;
mod refusals;
mod requests;
