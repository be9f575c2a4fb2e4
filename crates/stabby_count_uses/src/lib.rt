//! Callers of counted handles, in a crate of their own: what a program knows of a value that its threads share.
#![tactic(auto)]

#[cfg(test)]
mod calls_tests;
mod one_thread;
mod single;
#[cfg(test)]
mod tests;
mod two_threads;

pub use one_thread::{set_first_where_alone, set_where_alone, share_and_end, take_back};
pub use two_threads::{Lent, end_in_two_threads, lend_to_two_threads, read_in_two_threads};
