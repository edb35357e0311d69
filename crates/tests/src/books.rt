//! The book and its bill. Expected figures were worked out apart, in whole numbers of any size.
mod bills;
pub(crate) mod cases;
mod filling;
mod limits;
mod ranges;
