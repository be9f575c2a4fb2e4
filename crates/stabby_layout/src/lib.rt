//! What the container crates share: layouts, reports of types, texts, the number that a capacity is, and the error of
//! a refused growth.
//!
//! Each call of `Layout` answers the exact number, or `Range` exactly where that number is beyond `usize::MAX`.
//! `Described` is a type whose layout, id and report are stated, and its `report_is` is equality with that report.
#![tactic(auto)]

mod described;
mod error;
pub mod laws;
mod layout;
mod non_max;
mod numbers;
mod report;
#[cfg(test)]
mod tests;
mod text;

pub use described::Described;
pub use error::AllocationError;
pub use layout::Layout;
pub use non_max::NonMaxUsize;
pub use report::{FieldReport, TypeReport};
pub use text::Text;
