//! Callers of lists, in a crate of their own: what a program knows of its list once a drain of it has ended.
#![tactic(auto)]

mod drained;
#[cfg(test)]
mod replay;
#[cfg(test)]
mod tests;

pub use drained::{cut, cut_both, ends_of, first_of, first_then_last, stop_at_once, take_one};
