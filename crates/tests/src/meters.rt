//! The meter on both makes: what lines of text cannot reach, and what is worth showing by example.
mod bench;
mod bookings;
mod looks;
mod numbers;
mod slips;
mod spoilt;
