//! Tests on examples, at the calls of each library. Expected bytes were worked out by an independent model (bench/model.py), other figures by hand
//! from the rules of the chips, the wires, the book and the meter.
#![tactic(auto)]

#[cfg(test)]
mod books;
#[cfg(test)]
mod checks;
#[cfg(test)]
mod chips;
#[cfg(test)]
mod meters;
#[cfg(test)]
mod wires;
