//! Callers of symbols, in a crate of their own, and the tests of that library.
#![tactic(auto)]

#[cfg(test)]
mod fixtures;
#[cfg(test)]
mod gate_tests;
#[cfg(test)]
mod index_tests;
#[cfg(test)]
mod packing_tests;
#[cfg(test)]
mod random_tests;
mod reading;
#[cfg(test)]
mod symbol_tests;

pub use reading::{numbers_of, read_back};
