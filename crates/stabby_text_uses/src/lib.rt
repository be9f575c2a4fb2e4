//! Callers of texts, in a crate of their own.
#![tactic(auto)]

mod greeting;
mod reading;

pub use greeting::{begin_with_capital, greet};
pub use reading::read_line;
