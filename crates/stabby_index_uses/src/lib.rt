//! Callers of the index, in a crate of their own, and the tests of that library.
#![tactic(auto)]

mod new_row;
#[cfg(test)]
mod plain;
#[cfg(test)]
mod random_tests;
#[cfg(test)]
mod tests;
#[cfg(test)]
mod thread_tests;
mod two_threads;

pub use new_row::add_row;
pub use two_threads::put_in_two_threads;
