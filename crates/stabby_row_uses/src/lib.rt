//! Callers of rows, in a crate of their own.
#![tactic(auto)]

mod one_thread;
mod two_threads;

pub use one_thread::{RowFault, number_and_read_back};
pub use two_threads::number_both;
