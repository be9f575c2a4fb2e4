//! A row of atomic words in which each distinct table of words is kept once, as a linked node, with no turn.
//!
//! A [`WordRow`] is a registry: a table's number is its place in the list of tables that the row's links spell. An
//! insert claims words once, writes its node into them and hangs it behind the last link. It takes no memory, and it
//! returns whatever other threads do. A [`RowPass`] is what one caller has seen of the row: its front is a prefix of
//! the row's list. Passes are split for further callers and joined again. A row is bounded: words that were claimed
//! are never used again, and an insert that finds too few answers [`RowFull`].
#![tactic(auto)]

mod base;
mod entry;
mod insert;
pub mod laws;
mod pass;
mod plays;
mod row;
mod steps;
#[cfg(test)]
mod tests;
mod view;

pub use pass::RowPass;
pub use row::{RowFull, WordRow};
pub use stabby_layout::AllocationError;
