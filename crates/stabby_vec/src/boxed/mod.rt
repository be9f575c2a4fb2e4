//! `BoxedSlice`: a list that never grows.
pub mod slice;
mod traits;

pub use slice::BoxedSlice;
