//! Callers of a plugin host, in a crate of their own, and the tests of that library.
#![tactic(auto)]

mod in_order;
#[cfg(test)]
mod random_tests;
#[cfg(test)]
mod refusal_tests;
#[cfg(test)]
mod tests;

pub use in_order::{Unloaded, load_and_unload, load_two};
