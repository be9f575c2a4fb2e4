//! `SingleOrVec`: one item in the value itself, or a `Vec`.
mod comparison;
pub mod growth;
pub mod list;
mod parts;

pub use list::SingleOrVec;
