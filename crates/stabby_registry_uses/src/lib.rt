//! Callers of registries, in a crate of their own, and the tests of that library.
#![tactic(auto)]

#[cfg(test)]
mod calls_tests;
#[cfg(test)]
mod gate_tests;
mod one_thread;
#[cfg(test)]
mod row_tests;
#[cfg(test)]
mod tests;
mod two_threads;

pub use one_thread::{number_and_read_back, try_number};
pub use two_threads::{Two, number_both};
