//! A value and the 64-bit word that counts its strong and weak handles, in one block of the heap.
//!
//! A share is generic in its rule: what a seat's view is, and what holds between any two steps of
//! the word and all views, is up to the crate above. This crate proves that a step taken with a lemma
//! that keeps the rule does keep it, and that the right to the value and to the block goes where the step says.
#![tactic(auto)]

mod rule;
mod seat;
mod share;

pub use rule::{CountExchange, CountRule, CountSplit, CountStep};
pub use seat::Seat;
pub use share::Share;
