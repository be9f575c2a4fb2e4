//! Callers of sets and maps, in a crate of their own: versions that stay, a known key, counts. And the tests of that
//! library.
#![tactic(auto)]

mod counts;
#[cfg(test)]
mod hostile_tests;
#[cfg(test)]
mod random_tests;
#[cfg(test)]
mod tests;
#[cfg(test)]
mod uses_tests;
mod versions;

pub use counts::{Counts, count_one};
pub use versions::{Set, add_and_keep, add_both, known_again};
