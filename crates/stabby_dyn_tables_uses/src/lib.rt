//! Callers of interface tables, in a crate of their own.
#![tactic(auto)]

mod entries;
mod numbers;

pub use entries::{drop_word, inner_any};
pub use numbers::{number_of_pair, number_with_and_without_mark};
