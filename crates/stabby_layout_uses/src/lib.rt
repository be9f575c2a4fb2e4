//! Callers of layouts and reports, in a crate of their own.
#![tactic(auto)]

mod blocks;
mod reports;

pub use blocks::counted_items;
pub use reports::pair_report;
