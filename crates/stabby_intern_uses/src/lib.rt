//! A caller of `run`, in a crate of its own with the tests of `run`, so that the program's proof is made once.
#![tactic(auto)]

#[cfg(test)]
mod device_tests;
mod fresh;
#[cfg(test)]
mod gate_tests;
#[cfg(test)]
mod hostile_tests;
#[cfg(test)]
mod overlap_tests;
#[cfg(test)]
mod run_tests;

pub use fresh::run_fresh;
