//! The wires.
mod outcomes;
mod scripts;
